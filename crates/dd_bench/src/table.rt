// The table of times.

use crate::bench::time_kind;
use crate::fault::Fault;
use crate::hashing::time_hashes;
use crate::kind::Kind;
use crate::load::Load;
use std::iter;

/// Prints a line for each load, in nanoseconds a command, and behind them the time of a hash.
pub fn print_table(rt: &HostRuntime, loads: &[Load], kinds: &[Kind]) -> Result<(), Fault> {
    let mut head = format!(in rt.alloc(); "rows    ")?;
    for kind in kinds {
        head.push_str(format!(in rt.alloc(); "{:>8}", kind.name())?.as_str())?;
    }
    println!(rt; "{head}    open").map_err(|_| Fault::Output)?;
    for load in loads {
        print_row(rt, *load, kinds)?;
    }
    for load in loads.iter().take(1) {
        let took = time_hashes(rt, load.count)?;
        println!(rt; "hash {}", each(took, load.count)).map_err(|_| Fault::Output)?;
    }
    Ok(())
}

fn print_row(rt: &HostRuntime, load: Load, kinds: &[Kind]) -> Result<(), Fault> {
    let mut row = format!(in rt.alloc(); "{:<8}", load.rows)?;
    let mut open = u64::MAX;
    for kind in kinds {
        let times = time_kind(rt, *kind, load)?;
        let command = each(times.all.saturating_sub(times.none), load.count);
        row.push_str(format!(in rt.alloc(); "{command:>8}")?.as_str())?;
        open = open.min(times.none);
    }
    println!(rt; "{row} {open}").map_err(|_| Fault::Output)
}

// Of so many, what one takes.
fn each(took: u64, count: u32) -> u64 {
    took.checked_div(u64::from(count)).unwrap_or(0)
}
