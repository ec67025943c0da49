// A log of three groups, damaged at each of its bytes.

use crate::small::{Change, formatted, put, small};
use dd_journal::{Journal, JournalFault};
use dd_layout::flash_need;
use dd_rig::{Dev, Rig};
use dd_rigmem::RigMem;
use std::alloc::Global;
use std::process::Abort;
use std::test::Fail as Stop;

// What `find` answers: how many records it found and the room behind them, or the place of the log's fault.
#[derive(Clone, Copy, Debug, PartialEq, Eq)]
enum Told {
    Log(usize, u32),
    Group(u64),
    Other,
}

// Three blocks are stored; a hit of address 2 and a link of address 7; one record more.
const GROUPS: [Change<'static>; 11] = [
    Change {
        at: 97,
        bytes: b"\x01\x03\0\0\0",
    },
    Change {
        at: 102,
        bytes: b"\x03\0\0\0\0\0\0\0\x07\0\0\0\x02\0\0\0",
    },
    Change {
        at: 118,
        bytes: &[0xef; 32],
    },
    Change {
        at: 150,
        bytes: b"\x03\0\0\0\0\0\0\0\x02\0\0\0\x01\0\0\0",
    },
    Change {
        at: 166,
        bytes: &[0xcd; 32],
    },
    Change {
        at: 198,
        bytes: b"\x03\0\0\0\x01\0\0\0\x05\0\0\0\0\0\0\0",
    },
    Change {
        at: 214,
        bytes: &[0xab; 32],
    },
    Change {
        at: 246,
        bytes: b"\x01\x02\0\0\0",
    },
    Change {
        at: 251,
        bytes: b"\x01\0\0\0\0\0\0\0\x02\0\0\0",
    },
    Change {
        at: 299,
        bytes: b"\x02\0\0\0\0\0\0\0\x07\0\0\0\x01\0\0\0",
    },
    Change {
        at: 347,
        bytes: b"\x01\x01\0\0\0",
    },
];

// What is told where one byte of the log is one greater, 0 for 255: for each place below the number, from the
// place of the row before on, or from 97. An independent reader of docs/format.md gave it.
const ONE_GREATER: [(usize, Told); 56] = [
    (98, Told::Log(0, 392)),
    (99, Told::Group(246)),
    (102, Told::Group(98)),
    (103, Told::Group(114)),
    (106, Told::Group(102)),
    (107, Told::Log(6, 89)),
    (110, Told::Group(106)),
    (114, Told::Group(110)),
    (118, Told::Group(114)),
    (150, Told::Log(6, 89)),
    (151, Told::Group(162)),
    (154, Told::Group(150)),
    (155, Told::Log(6, 89)),
    (158, Told::Group(154)),
    (159, Told::Log(6, 89)),
    (162, Told::Group(158)),
    (163, Told::Log(6, 89)),
    (166, Told::Group(162)),
    (198, Told::Log(6, 89)),
    (199, Told::Group(202)),
    (202, Told::Group(198)),
    (206, Told::Group(202)),
    (207, Told::Log(6, 89)),
    (210, Told::Group(206)),
    (211, Told::Log(6, 89)),
    (214, Told::Group(210)),
    (246, Told::Log(6, 89)),
    (247, Told::Log(3, 243)),
    (248, Told::Group(347)),
    (251, Told::Group(247)),
    (252, Told::Log(6, 89)),
    (255, Told::Group(251)),
    (259, Told::Group(255)),
    (260, Told::Log(6, 89)),
    (263, Told::Group(259)),
    (267, Told::Group(263)),
    (299, Told::Group(267)),
    (300, Told::Log(6, 89)),
    (303, Told::Group(299)),
    (304, Told::Log(6, 89)),
    (307, Told::Group(303)),
    (311, Told::Group(307)),
    (312, Told::Log(6, 89)),
    (315, Told::Group(311)),
    (347, Told::Group(315)),
    (348, Told::Log(5, 142)),
    (349, Told::Group(400)),
    (352, Told::Group(348)),
    (356, Told::Group(352)),
    (360, Told::Group(356)),
    (361, Told::Log(6, 89)),
    (364, Told::Group(360)),
    (368, Told::Group(364)),
    (400, Told::Group(368)),
    (401, Told::Group(401)),
    (489, Told::Log(6, 89)),
];

// What `find` answers on a flash.
fn find_on(rt: &impl Abort, alloc: Global, flash: &[u8]) -> Result<Told, Stop> {
    let geo = small()?;
    let mut rig = RigMem::new(alloc, flash, &[], &[])?;
    assert!(rt; rig.size(Dev::Flash) >= flash_need(geo));
    Ok(match Journal::find(alloc, &mut rig, geo) {
        Ok(found) => Told::Log(found.recs.len(), found.journal.room()),
        Err(fault) => told_of(&fault),
    })
}

fn told_of(fault: &JournalFault) -> Told {
    match fault {
        JournalFault::Group { region: 0, at } => Told::Group(*at),
        _ => Told::Other,
    }
}

// And where the byte at this place is one greater.
fn find_with(rt: &impl Abort, alloc: Global, flash: &mut [u8], place: usize) -> Result<Told, Stop> {
    let byte = match flash.get(place) {
        Some(byte) => *byte,
        None => return Err("no such byte")?,
    };
    put(flash, place, &[byte.wrapping_add(1)]);
    let told = find_on(rt, alloc, flash)?;
    put(flash, place, &[byte]);
    Ok(told)
}

fn each_byte_is_told(
    rt: &impl Abort,
    alloc: Global,
    version: u8,
    last: &[u8; 12],
) -> Result<(), Stop> {
    let mut flash = formatted(alloc, version, &GROUPS)?;
    put(&mut flash, 352, last);
    assert_eq!(rt; find_on(rt, alloc, &flash)?, Told::Log(6, 89));
    let mut place = 97;
    for (behind, want) in ONE_GREATER {
        for at in place..behind {
            let told = find_with(rt, alloc, &mut flash, at)?;
            assert_eq!(rt; told, want, "byte {at}");
        }
        place = behind;
    }
    assert_eq!(rt; place, 489);
    Ok(())
}

// The last record: address 5 is written back.
#[test]
fn each_byte_of_a_log_is_told_at_its_place(rt: HostRuntime) -> Result<(), Stop> {
    each_byte_is_told(&rt, rt.alloc(), 1, b"\x04\0\0\0\0\0\0\0\x05\0\0\0")
}

// And zeros are written to address 2.
#[test]
fn each_byte_of_a_log_of_version_2_is_told(rt: HostRuntime) -> Result<(), Stop> {
    each_byte_is_told(&rt, rt.alloc(), 2, b"\x05\0\0\0\x01\0\0\0\x02\0\0\0")
}
