//! Tests each call that needs memory with too little of it: the call must answer Memory and leave
//! all as before. Either only some blocks are left or, where the heap counts requests for memory
//! (growths, tests/faults/fuse.c), each growth is refused in turn. With a number `n` on the command
//! line, only every nth growth is refused. One line is printed for each call.
#![tactic(auto)]

mod cases;
mod drought;
mod fuse;
mod setting;
mod shortage;
mod texts;
mod trials;

use crate::cases::{CALLS, Call, Case};
use crate::shortage::{Limit, Shortage};
use crate::trials::{TrialResult, try_case};
use std::alloc::{AllocError, Global};
use std::{env, io};

/// How many nested calls of `deepen` make the stack grow before memory is taken away; it then has
/// more room than any tried call needs.
const STACK_CALLS: u32 = 8_192;

/// The nested calls make the stack grow, and each holds a block. True if no block was refused.
fn deepen(alloc: Global, times: u32) -> bool {
    if times == 0 {
        return true;
    }
    let held: Result<Vec<u8>, AllocError> = Vec::with_capacity(alloc, 1);
    let is_deep = deepen(alloc, times - 1);
    held.is_ok() && is_deep
}

/// With fewer blocks than it needs the call must answer Memory.
fn with_blocks(rt: &HostRuntime, case: &Case, shortage: &mut Shortage) -> io::Result<()> {
    let call = case.call;
    for blocks in 0..2_000u32 {
        shortage.limit = Limit::Blocks(blocks);
        match try_case(rt.alloc(), case, shortage) {
            TrialResult::Held => {}
            TrialResult::Done if blocks > 0 => {
                return println!(rt; "{call:?}: without memory Memory, and with it done");
            }
            outcome => return println!(rt; "{call:?} with {blocks} blocks: {outcome:?}"),
        }
    }
    println!(rt; "{call:?}: never done")
}

/// One growth (a request for memory) is refused each time; its number rises by `step`, until none
/// is refused.
fn with_refusals(
    rt: &HostRuntime,
    case: &Case,
    shortage: &mut Shortage,
    step: u32,
) -> io::Result<()> {
    let call = case.call;
    let mut made_good = 0u32;
    for refused in 0..1_000_000u32 {
        let growth = refused.saturating_mul(step).saturating_add(1);
        shortage.limit = Limit::Growth(growth);
        match try_case(rt.alloc(), case, shortage) {
            TrialResult::Held => {}
            TrialResult::MadeGood => made_good = made_good.saturating_add(1),
            TrialResult::Done => {
                return println!(rt;
                    "{call:?}: {refused} growths refused, {made_good} made good, and growth {growth} never comes"
                );
            }
            outcome => return println!(rt; "{call:?} at growth {growth}: {outcome:?}"),
        }
    }
    println!(rt; "{call:?}: never done")
}

fn try_call(
    rt: &HostRuntime,
    call: Call,
    shortage: &mut Shortage,
    step: Option<u32>,
) -> io::Result<()> {
    match (Case::recorded(rt.alloc(), call), step) {
        (Some(case), Some(step)) => with_refusals(rt, &case, shortage, step),
        (Some(case), None) => with_blocks(rt, &case, shortage),
        (None, _) => println!(rt; "{call:?}: no case"),
    }
}

fn step(rt: &HostRuntime) -> io::Result<u32> {
    match env::args(rt)?.nth(1) {
        Some(word) => Ok(word.as_str().parse::<u32>().unwrap_or(1).max(1)),
        None => Ok(1),
    }
}

fn main(rt: HostRuntime) -> io::Result<()> {
    let step = step(&rt)?;
    let Some(mut shortage) = Shortage::new(rt.alloc()) else {
        return println!(rt; "no room");
    };
    // A drought takes all memory that the stack could grow into, so the stack grows before it.
    if !deepen(rt.alloc(), STACK_CALLS) {
        return println!(rt; "no stack");
    }
    for call in CALLS.iter() {
        try_call(&rt, *call, &mut shortage, None)?;
    }
    if fuse::arm(rt.alloc(), 1) {
        fuse::has_refused(rt.alloc());
        for call in CALLS.iter() {
            try_call(&rt, *call, &mut shortage, Some(step))?;
        }
    }
    Ok(())
}
