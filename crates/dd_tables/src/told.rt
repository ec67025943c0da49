// What an output tells, line by line.

use std::str;

const KINDS: [&[u8]; 5] = [b"hit", b"join", b"miss", b"dup", b"new"];

/// How many references its whole lines answer.
pub fn answered(said: &[u8]) -> u64 {
    said.split_inclusive(|byte| *byte == b'\n')
        .filter(|line| is_answer(line))
        .count() as u64
}

fn is_answer(line: &[u8]) -> bool {
    line.ends_with(b"\n") && KINDS.iter().any(|kind| line.starts_with(kind))
}

/// The greatest count that a whole line acknowledges, or 0.
pub fn acknowledged(said: &[u8]) -> u64 {
    said.split_inclusive(|byte| *byte == b'\n')
        .filter_map(|line| count_behind(line, b"flushed ").or(count_behind(line, b"bye ")))
        .max()
        .unwrap_or(0)
}

/// The number behind this word, where that is the whole line.
pub fn count_behind(line: &[u8], word: &[u8]) -> Option<u64> {
    let digits = line.strip_suffix(b"\n")?.strip_prefix(word)?;
    str::from_utf8(digits).ok()?.parse().ok()
}

/// How many bytes the first lines of a text have.
pub fn bytes_of_lines(text: &[u8], lines: usize) -> usize {
    text.split_inclusive(|byte| *byte == b'\n')
        .take(lines)
        .map(|line| line.len())
        .fold(0, |bytes, line| bytes.saturating_add(line))
}
