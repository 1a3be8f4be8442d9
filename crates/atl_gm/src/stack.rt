//! Finds out whether the stack can grow as far as a command may need.
use libc::types::rlimit;
use std::alloc::{AllocError, Global};

/// In how many steps the stack grows as far as a command may need. A world text that nests tables
/// as deep as TOML allows, and then has a fault, takes 2.4 MB.
const STEPS: usize = 10;

/// The number of bytes of a step.
const STEP_BYTES: usize = 262_144;

/// The memory to ask for before the stack grows, in bytes. Each call of `grow` has a buffer of a
/// step, the last one too, and one step more is for the rest of their frames.
const ROOM_BYTES: usize = (STEPS + 2) * STEP_BYTES;

/// The least limit on the stack, in bytes. The command line and the environment have a quarter of
/// it at most.
const LEAST_LIMIT: u64 = 4_194_304;

/// The number of the limit on the address space, in which the stack lies too.
const RLIMIT_AS: i32 = 9;

/// The limit that stands for none.
const NO_LIMIT: u64 = u64::MAX;

fn limit_on(resource: i32) -> u64 {
    let mut limit = rlimit {
        rlim_cur: 0,
        rlim_max: 0,
    };
    if libc::getrlimit(resource, &mut limit) != 0 {
        return 0;
    }
    limit.rlim_cur
}

/// The system refuses this by an error, but ends a program whose stack it refuses to grow.
fn ask_for_room(alloc: Global) -> Result<(), AllocError> {
    let _room: Vec<u8> = Vec::with_capacity(alloc, ROOM_BYTES)?;
    Ok(())
}

/// The test keeps a compiler from leaving out the buffer.
#[inline(never)]
fn is_clear(room: &[u8]) -> bool {
    for each in room {
        if *each != 0 {
            return false;
        }
    }
    true
}

/// The test of the bytes comes last, so that a compiler leaves out no buffer, and has all of them
/// at one time.
#[inline(never)]
fn grow(steps: usize) -> bool {
    if steps == 0 {
        return true;
    }
    let room = [0; STEP_BYTES];
    grow(steps - 1) && is_clear(&room)
}

/// Whether the stack can grow as far as a command may need. Without a limit on the address space,
/// the limit on the stack decides. With one, the stack grows now, since memory that is taken later
/// could leave no room for it.
pub fn has_room(alloc: Global) -> bool {
    if limit_on(libc::RLIMIT_STACK) < LEAST_LIMIT {
        return false;
    }
    limit_on(RLIMIT_AS) == NO_LIMIT || (ask_for_room(alloc).is_ok() && grow(STEPS))
}
