// What a crash leaves, by a number that picks it.
ghost use Rattle.std.specs.Prelude.{◌≡◌, IfOk, length, ◌≤◌, if◌then◌else◌};
ghost use Rattle.dd_block.specs.Lcg.{next_state, draw};
ghost use Rattle.dd_rigmem.specs.Pick.{is_free, picked_byte, picked_bytes, picked_rest, picked_output};

use crate::device_mem::DeviceMem;
use dd_block::Lcg;
use std::alloc::{AllocError, Global};

/// The bytes that a crash leaves of a device. Each free byte takes one draw.
pub fn pick_bytes(
    alloc: Global,
    pick: u64,
    device: &DeviceMem,
    numbers: &mut Lcg,
) -> Result<Vec<u8>, AllocError>
    requires { length device.now.stable ≤ length device.now.shown }
    ensures bytes { IfOk result (λ bytes. bytes.items ≡ picked_bytes pick device.now.ranges 0 numbers.old.state device.now.stable device.now.shown) }
    ensures numbers { IfOk result (λ bytes. numbers.new.state ≡ picked_rest device.now.ranges 0 numbers.old.state device.now.stable) }
{
    let stable = device.stable();
    let shown = device.shown();
    let free = device.free(alloc)?;
    let mut bytes = Vec::new(alloc);
    for place in 0..stable.len() {
        bytes.push(pick_next(pick, free[place], stable[place], shown[place], numbers))?;
    }
    Ok(bytes)
}

// A byte that is free takes one draw.
fn pick_next(pick: u64, is_free: bool, stable: u8, shown: u8, numbers: &mut Lcg) -> u8
    ensures byte { result ≡ (if is_free then picked_byte pick (draw numbers.old.state) stable shown else stable) }
    ensures number { numbers.new.state ≡ (if is_free then next_state numbers.old.state else numbers.old.state) }
{
    if is_free {
        pick_byte(pick, numbers.next(), stable, shown)
    } else {
        stable
    }
}

fn pick_byte(pick: u64, drawn: u32, stable: u8, shown: u8) -> u8
    ensures { result ≡ picked_byte pick drawn stable shown }
{
    match pick {
        0 => stable,
        1 => shown,
        2 => 1,
        _ => match drawn % 3 {
            0 => stable,
            1 => shown,
            _ => ((drawn / 4) % 256) as u8,
        },
    }
}

/// The output that a crash leaves: what was said, and a part of what is unfinished.
pub fn pick_output(
    alloc: Global,
    pick: u64,
    said: &[u8],
    unfinished: &[u8],
    numbers: &mut Lcg,
) -> Result<Vec<u8>, AllocError>
    ensures { IfOk result (λ out. out.items ≡ picked_output pick numbers.old.state said.now unfinished.now) }
{
    let drawn = numbers.next() as usize;
    let count = match pick {
        0 => 0,
        1 => unfinished.len(),
        2 => unfinished.len() / 2,
        _ => drawn % (unfinished.len() + 1),
    };
    let mut out = said.to_vec(alloc)?;
    out.extend_from_slice(&unfinished[..count])?;
    Ok(out)
}
