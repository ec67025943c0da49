// Formatted flashes with bytes changed, and devices that are cut off.

use crate::world::{FLASH, formatted, serve, worked_disk};
use dd_rigmem::RigMem;
use std::alloc::Global;
use std::process::Abort;
use std::test::Fail as Stop;

// The first condition that is met, in the order of docs/format.md, is told with its place or its value. The lines
// are those of a program that computes them from the definitions alone.
#[test]
fn a_changed_flash_is_refused(rt: HostRuntime) -> Result<(), Stop> {
    let rows: [(&[(usize, u8)], &[u8]); 31] = [
        // the superblock
        (&[(0, 0)], b"refused super gate 0\n"),
        (&[(0, 2)], b"refused super gate 2\n"),
        (&[(1, 7)], b"refused super padding 1\n"),
        (&[(4, 0)], b"refused super magic\n"),
        (&[(8, 2)], b"refused super version 2\n"),
        (&[(12, 15)], b"refused super geometry block 15\n"),
        (&[(12, 17)], b"refused super geometry block 17\n"),
        (&[(50, 2)], b"refused super padding 50\n"),
        (&[(63, 1)], b"refused super padding 63\n"),
        // the gates and headers of the regions
        (&[(64, 0)], b"refused no region\n"),
        (&[(65, 0)], b"refused snapshot 0 65\n"),
        (&[(68, 9)], b"refused snapshot 0 65\n"),
        (&[(69, 9)], b"refused snapshot 0 69\n"),
        (&[(69, 1)], b"refused version 1\n"),
        (&[(89, 4)], b"refused snapshot 0 89\n"),
        (&[(89, 9)], b"refused snapshot 0 89\n"),
        (&[(93, 3)], b"refused snapshot 0 93\n"),
        (&[(93, 9)], b"refused snapshot 0 93\n"),
        (&[(80, 64)], b"refused worn 4611686018427387905\n"),
        (&[(88, 64)], b"refused worn 4611686018427387904\n"),
        (&[(693, 1)], b"refused snapshot 1 694\n"),
        // an equal region 1
        (
            &[
                (693, 1),
                (694, b'D'),
                (695, b'L'),
                (696, b'R'),
                (697, b'1'),
                (698, 2),
                (702, 1),
            ],
            b"refused snapshot 1 702\n",
        ),
        // a row of a block, and one of an address
        (&[(93, 1), (97, 3)], b"refused snapshot 0 97\n"),
        (&[(89, 1), (101, 2)], b"refused snapshot 0 101\n"),
        // address 5 twice, unlinked
        (
            &[
                (89, 2),
                (97, 5),
                (105, 255),
                (106, 255),
                (107, 255),
                (108, 255),
                (141, 5),
                (149, 255),
                (150, 255),
                (151, 255),
                (152, 255),
            ],
            b"refused snapshot 0 141\n",
        ),
        // two counts of records; a hit that is dirty; no kind of record; a link to a slot that isn't listed; a
        // store of an address that is clean, which is cleaned
        (&[(97, 1)], b"refused group 0 98\n"),
        (&[(97, 1), (98, 9)], b"refused group 0 98\n"),
        (
            &[(97, 1), (98, 1), (102, 1), (106, 1)],
            b"refused group 0 106\n",
        ),
        (&[(97, 1), (98, 1), (102, 9)], b"refused group 0 102\n"),
        (&[(97, 1), (98, 1), (102, 2)], b"refused group 0 102\n"),
        (
            &[(97, 1), (98, 2), (102, 3), (150, 4)],
            b"refused group 0 150\n",
        ),
    ];
    let alloc = rt.alloc();
    for (changes, line) in rows {
        refuses(&rt, alloc, &changed(alloc, changes)?, &worked_disk(), line)?;
    }
    Ok(())
}

#[test]
fn a_flash_of_zeros_is_refused(rt: HostRuntime) -> Result<(), Stop> {
    let alloc = rt.alloc();
    let zeros = vec![in alloc; 0; FLASH]?;
    refuses(
        &rt,
        alloc,
        &zeros,
        &worked_disk(),
        b"refused super gate 0\n",
    )
}

fn changed(alloc: Global, changes: &[(usize, u8)]) -> Result<Vec<u8>, Stop> {
    let mut flash = formatted(alloc)?;
    for (at, byte) in changes {
        if let Some(place) = flash.get_mut(*at) {
            *place = *byte;
        }
    }
    Ok(flash)
}

// This flash is refused with 3 and this line, and both devices stay.
fn refuses(
    rt: &impl Abort,
    alloc: Global,
    flash: &[u8],
    disk: &[u8],
    line: &[u8],
) -> Result<(), Stop> {
    let mut rig = RigMem::new(alloc, flash, disk, &[])?;
    let ran = serve(alloc, &mut rig, b"r 0\n")?;
    assert_eq!(rt; ran.said.as_slice(), line);
    assert_eq!(rt; ran.status, 3, "{line:?}");
    let left = rig.crash(alloc, 2)?;
    assert_eq!(rt; left.flash.as_slice(), flash, "{line:?}");
    assert_eq!(rt; left.disk.as_slice(), disk, "{line:?}");
    Ok(())
}

// Without a whole superblock 64 bytes are needed, else those of its geometry.
#[test]
fn a_flash_of_each_smaller_size_is_refused(rt: HostRuntime) -> Result<(), Stop> {
    let alloc = rt.alloc();
    let disk = worked_disk();
    let mut flash = formatted(alloc)?;
    for size in (0..FLASH).rev() {
        flash.truncate(size);
        let need = if size < 64 { 64 } else { FLASH };
        let line = format!(in alloc; "refused flash small {need} {size}\n")?;
        refuses(&rt, alloc, &flash, &disk, line.as_bytes())?;
    }
    Ok(())
}

#[test]
fn a_disk_of_each_smaller_size_is_refused(rt: HostRuntime) -> Result<(), Stop> {
    let alloc = rt.alloc();
    let flash = formatted(alloc)?;
    let mut disk = Vec::from_slice(alloc, &worked_disk())?;
    for size in (0..128).rev() {
        disk.truncate(size);
        let line = format!(in alloc; "refused disk small 128 {size}\n")?;
        refuses(&rt, alloc, &flash, &disk, line.as_bytes())?;
    }
    Ok(())
}
