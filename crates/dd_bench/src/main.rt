//! `dd_bench COUNT ROWS..`: the time of a command of each kind over devices in memory.
//!
//! No call leaves the process while the clock runs, so what is timed is the program's own.
#![tactic(auto)]

mod bench;
mod fault;
mod hashing;
mod kind;
mod load;
mod rig_plain;
mod script;
mod table;

use bench::check_kind;
use fault::Fault;
use kind::{KINDS, Kind, kind_of};
use load::{Load, load_of};
use std::env;
use std::process::ExitCode;
use table::print_table;

/// What is timed. No kinds are all.
#[derive(Drop)]
struct Wanted {
    loads: Vec<Load>,
    kinds: Vec<Kind>,
}

/// How the program is called.
const USAGE: &str = "usage: dd_bench [COUNT ROWS.. KIND..]

  COUNT  commands of a kind that are timed: 1 to 10000000
  ROWS   addresses and blocks that are listed: 1 to 65536, a line each
  KIND   hit, join, miss, dup, new or bad: all of them without one

Without numbers it times nothing, and tells what 200 commands of each kind came to.";

/// The words are no numbers in their range.
const REFUSED_WORDS: u8 = 2;
/// A run ended early, a reply is of another kind, or there is no clock or no memory.
const NOT_TIMED: u8 = 1;

fn main(rt: HostRuntime) -> ExitCode {
    ExitCode::from(status(&rt))
}

fn status(rt: &HostRuntime) -> u8 {
    let done = match read_words(rt) {
        Ok(Some(wanted)) if wanted.loads.is_empty() => check_all(rt),
        Ok(Some(wanted)) if wanted.kinds.is_empty() => print_table(rt, &wanted.loads, &KINDS),
        Ok(Some(wanted)) => print_table(rt, &wanted.loads, &wanted.kinds),
        Ok(None) => {
            let _ = rt.eprintln(USAGE);
            return REFUSED_WORDS;
        }
        Err(fault) => Err(fault),
    };
    match done {
        Ok(()) => 0,
        Err(fault) => {
            let _ = rt.eprintln(fault);
            NOT_TIMED
        }
    }
}

// What the words ask for: nothing without words. `None`: they are refused.
fn read_words(rt: &HostRuntime) -> Result<Option<Wanted>, Fault> {
    let words = match env::args(rt) {
        Ok(arguments) => arguments.skip(1).collect::<Vec<String>>(rt.alloc())?,
        Err(_) => return Err(Fault::Words),
    };
    let mut loads = Vec::new(rt.alloc());
    let mut kinds = Vec::new(rt.alloc());
    for at in 1..words.len() {
        let word = words[at].as_str();
        match kind_of(word) {
            Some(kind) => kinds.push(kind).map_err(|_| Fault::Memory)?,
            None => match load_of(words[0].as_str(), word) {
                Some(load) => loads.push(load).map_err(|_| Fault::Memory)?,
                None => return Ok(None),
            },
        }
    }
    if loads.is_empty() && !words.is_empty() {
        return Ok(None);
    }
    Ok(Some(Wanted { loads, kinds }))
}

// What 200 commands of each kind came to with 100 rows.
fn check_all(rt: &HostRuntime) -> Result<(), Fault> {
    let load = Load::small();
    for kind in KINDS {
        let told = check_kind(rt.alloc(), kind, load)?;
        println!(rt;
            "{} {} of {}, out {}, drop {}",
            kind.name(),
            told.replies,
            load.count,
            told.outs,
            told.drops
        )
        .map_err(|_| Fault::Output)?;
    }
    Ok(())
}
