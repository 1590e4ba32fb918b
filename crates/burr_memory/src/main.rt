//! Makes each call that takes memory, and once more where it wants some, and prints whether it gave
//! what it should. So whichever one request for memory is refused, what is printed is the same:
//! `scripts/refuse-memory` refuses each of them in turn.
#![tactic(auto)]

mod call;
mod inputs;

use crate::call::{CALLS, Kit};
use burr_testing::bytes_of;
use burr_testing::plans::RESULT_PLAN;
use std::alloc::AllocError;
use std::io;

fn main(rt: HostRuntime) -> io::Result<()> {
    let bytes = match bytes_of(rt.alloc(), RESULT_PLAN) {
        None => bytes_of(rt.alloc(), RESULT_PLAN),
        given => given,
    };
    let bytes = bytes.ok_or(AllocError)?;
    tell_of(&rt, &bytes)
}

/// Tells of each call, with a plan of these bytes.
fn tell_of(rt: &HostRuntime, bytes: &[u8]) -> io::Result<()> {
    if let Ok(kit) = Kit::new(rt.alloc(), bytes) {
        return tell_all(rt, &kit);
    }
    tell_all(rt, &Kit::new(rt.alloc(), bytes)?)
}

/// Tells of each call whether it gave what it should.
fn tell_all(rt: &HostRuntime, kit: &Kit<'_>) -> io::Result<()> {
    for (name, call) in &CALLS {
        let given = match call.is_right(kit) {
            Err(AllocError) => call.is_right(kit),
            given => given,
        };
        let word = if matches!(given, Ok(true)) {
            "right"
        } else {
            "wrong"
        };
        println!(rt; "{name}: {word}")?;
    }
    Ok(())
}
