// 65,536 addresses and as many blocks. The sums are those that two programs compute from the definitions.

use dd_rigmem::{RigMem, SourceMem};
use std::alloc::Global;
use std::test::Fail as Stop;

const FORMAT: [&str; 8] = [
    "format", "16", "131072", "65536", "65536", "1024", "1024", "16777216",
];

const GEN: [&str; 3] = ["gen", "1", "200000"];

const WANT: &[u8] =
    b"formatted\nsum hit 43400 join 69108 miss 0 dup 12767 new 49714 out 41891 drop 0\nbye 174989\n";

// Runs the words, with SHA-256, and answers the status.
fn run(alloc: Global, rig: &mut RigMem, words: &[&str]) -> Result<u8, Stop> {
    let mut all = Vec::new(alloc);
    for word in words {
        all.push(String::from_str(alloc, word)?)?;
    }
    let mut source = SourceMem::new(alloc, &[], 1, &[])?;
    Ok(dd_serve::run(alloc, &all, &mut source, rig))
}

#[test]
fn two_hundred_thousand_commands(rt: HostRuntime) -> Result<(), Stop> {
    let alloc = rt.alloc();
    let flash = vec![in alloc; 0; 45_105_282]?;
    let disk = vec![in alloc; 0; 2_097_152]?;
    let mut rig = RigMem::new(alloc, &flash, &disk, &[])?;
    assert_eq!(rt; run(alloc, &mut rig, &FORMAT)?, 0);
    assert_eq!(rt; run(alloc, &mut rig, &GEN)?, 0);
    assert_eq!(rt; rig.crash(alloc, 1)?.out.as_slice(), WANT);
    Ok(())
}
