// The scripts: one that fills the lists, and one that is timed.
ghost use Rattle.std.specs.Prelude.{◌≡◌, ◌+◌, ◌*◌, ◌<◌, ◌≤◌};

use crate::kind::Kind;
use crate::load::Load;
use dd_block::Lcg;
use std::alloc::{AllocError, Global};

/// The script of no command.
pub const NONE: &[u8] = b"q\n";

/// Fills both lists so that each command of `timed` is of the kind. Nothing is dirty behind it.
pub fn filling(alloc: Global, kind: Kind, load: Load) -> Result<Vec<u8>, AllocError> {
    let rows = u64::from(load.rows);
    let mut script = Vec::new(alloc);
    fill(alloc, &mut script, rows, 0, 1)?;
    match kind {
        Kind::Hit | Kind::Dup | Kind::Bad => {}
        Kind::Join => fill(alloc, &mut script, rows, rows, 1)?,
        Kind::Miss | Kind::New => fill(alloc, &mut script, rows, rows, rows + 1)?,
    }
    script.extend_from_slice(NONE)?;
    Ok(script)
}

/// The commands of a kind behind its `filling`. The addresses of a hit, and what a dup writes, are at
/// random; a join, a miss and a new go round twice as many addresses as are listed, so each evicts one.
pub fn timed(alloc: Global, kind: Kind, load: Load) -> Result<Vec<u8>, AllocError> {
    let rows = u64::from(load.rows);
    let mut numbers = Lcg::new(1);
    let mut script = Vec::new(alloc);
    for n in 0..load.count {
        let n = u64::from(n);
        match kind {
            Kind::Hit => read(alloc, &mut script, drawn(&mut numbers, rows))?,
            Kind::Join | Kind::Miss => read(alloc, &mut script, n % (2 * rows))?,
            Kind::Dup => {
                let address = drawn(&mut numbers, rows);
                let content = drawn(&mut numbers, rows);
                write(alloc, &mut script, address, content + 1)?;
            }
            Kind::New => write(alloc, &mut script, n % (2 * rows), 2 * rows + n + 1)?,
            Kind::Bad => read(alloc, &mut script, 100_000_000 + n)?,
        }
    }
    script.extend_from_slice(NONE)?;
    Ok(script)
}

// Writes one number behind another to one address behind another, and then cleans them.
fn fill(
    alloc: Global,
    script: &mut Vec<u8>,
    rows: u64,
    address: u64,
    content: u64,
) -> Result<(), AllocError>
    requires rows { rows ≤ 65536 }
    requires address { address ≤ 65536 }
    requires content { content ≤ 65537 }
{
    for n in 0..rows {
        write(alloc, script, address + n, content + n)?;
    }
    script.extend_from_slice(b"c\n")
}

fn drawn(numbers: &mut Lcg, below: u64) -> u64
    requires { 0 < below }
    ensures { result < below }
{
    u64::from(numbers.next()) % below
}

fn write(
    alloc: Global,
    script: &mut Vec<u8>,
    address: u64,
    content: u64,
) -> Result<(), AllocError> {
    let line = format!(in alloc; "w {address} {content:08x}\n")?;
    script.extend_from_slice(line.as_bytes())
}

fn read(alloc: Global, script: &mut Vec<u8>, address: u64) -> Result<(), AllocError> {
    let line = format!(in alloc; "r {address}\n")?;
    script.extend_from_slice(line.as_bytes())
}
