// How much is timed.
ghost use Rattle.std.specs.Prelude.{◌<◌, ◌≤◌};

use dd_script::number_below;

/// So many commands, with so many addresses and as many blocks listed.
#[derive(Clone, Copy, Debug, PartialEq, Eq)]
pub struct Load {
    pub rows: u32,
    pub count: u32,
    ghost some: { 0 < rows },
    ghost few: { rows ≤ 65536 },
    ghost short: { count ≤ 10000000 },
}

impl Load {
    /// What a check takes.
    pub fn small() -> Load {
        Load {
            rows: 100,
            count: 200,
        }
    }
}

/// The load that two words spell. `None`: one is no number in its range.
pub fn load_of(count: &str, rows: &str) -> Option<Load> {
    let count = number_below(count.as_bytes(), 10_000_001)?;
    let rows = number_below(rows.as_bytes(), 65_537)?;
    if count == 0 || rows == 0 {
        return None;
    }
    Some(Load { rows, count })
}
