//! What a want of memory gives.

use crate::answers::{answer, answer_to, is_written};
use crate::asm::{ANSWERED_LIFT, LIFT, LISTED_DUO, RING, RING_PLACES};
use crate::container::two_cubes;
use crate::tables::input_of;
use burr_asm::{AsmFault, assemble, list};
use burr_assembly::{Assembly, AssemblyFault};
use burr_code::{encode, fetch};
use burr_container::{Container, Plan};
use burr_testing::plans::{DUO, DUO_PLAN, RING_PLAN};
use burr_testing::{Outcome, Trial, outcomes_in_want};
use std::alloc::{AllocError, Global};
use std::process::Abort;

/// A kind of answers, what the input is made of, the input, and the answer with memory.
const OF_ASSEMBLIES: [[&str; 4]; 3] = [
    ["code", "@", "22 00 00 00 02", "Ask(0, 2)"],
    ["assembly", DUO, "", "right"],
    [
        "assembly",
        DUO,
        "7 piece B cube +x+y+z 0 0 0",
        "A8 { line: 7, earlier: 0, piece: 1 }",
    ],
];

/// The same of plans.
const OF_PLANS: [[&str; 4]; 5] = [
    ["asm", LIFT, "", "right"],
    ["asm", LIFT, "10 call lid", "P2 { line: 10 }"],
    ["asm", ANSWERED_LIFT, "15 result 0 2/guard 0+1v0", "right"],
    ["places", RING, "", RING_PLACES],
    ["plan", "@", DUO_PLAN, "right"],
];

/// A call, the kind of its input and the input, and the same of what it gives.
const CALLS: [[&str; 5]; 6] = [
    ["encode", "code", "22 00 00 00 02", "code", "22 00 00 00 02"],
    ["read", "assembly", DUO, "assembly", DUO],
    ["write an assembly", "assembly", DUO, "assembly", DUO],
    ["write a plan", "container", DUO_PLAN, "container", DUO_PLAN],
    ["assemble", "asm", RING, "container", RING_PLAN],
    ["list", "container", DUO_PLAN, "asm", LISTED_DUO],
];

/// How many bytes farther down the stack a trial with ample memory is made.
const DEEPER: usize = 16_384;

/// An input that is answered, and the answer that is right.
#[derive(Drop)]
struct Asked<'a> {
    kind: &'a str,
    input: Vec<u8>,
    want: &'a str,
    /// Where the answer is told, without further memory.
    found: String,
}

impl<'a> Asked<'a> {
    fn new(alloc: Global, asked: &[&'a str; 4]) -> Result<Asked<'a>, AllocError> {
        let [kind, base, input, want] = *asked;
        Ok(Asked {
            kind,
            input: input_of(alloc, kind, base, input)?,
            want,
            found: String::with_capacity(alloc, 1000)?,
        })
    }
}

impl Trial for Asked<'_> {
    fn outcome(&mut self, alloc: Global) -> Outcome {
        self.found.clear();
        match answer(alloc, self.kind, &self.input, &mut self.found) {
            Ok(()) => outcome_of(&self.found, self.want),
            Err(AllocError) => Outcome::Want,
        }
    }
}

/// What comes of an answer.
fn outcome_of(found: &str, want: &str) -> Outcome {
    match found {
        "Memory" => Outcome::Want,
        _ if found == want => Outcome::Right,
        _ => Outcome::Wrong,
    }
}

/// A call alone that wants memory: which, what it is given, and what it gives. It is made again and
/// again of the same values, so that a change of these by a call that was refused memory would show.
#[derive(Drop)]
struct Call<'a> {
    name: &'a str,
    input: Vec<u8>,
    assembly: Assembly,
    plan: Plan,
    want: Vec<u8>,
}

impl<'a> Call<'a> {
    fn new(alloc: Global, call: &[&'a str; 5]) -> Result<Call<'a>, AssemblyFault> {
        let [name, kind, input, kind_of_want, want] = *call;
        Ok(Call {
            name,
            input: input_of(alloc, kind, "@", input)?,
            assembly: Assembly::read(alloc, DUO.as_bytes())?,
            plan: two_cubes(alloc)?,
            want: input_of(alloc, kind_of_want, "@", want)?,
        })
    }
}

impl Trial for Call<'_> {
    fn outcome(&mut self, alloc: Global) -> Outcome {
        let given = (self.input.as_slice(), &self.assembly, &self.plan);
        match is_given(alloc, self.name, given, &self.want) {
            Ok(true) => Outcome::Right,
            Ok(false) => Outcome::Wrong,
            Err(AllocError) => Outcome::Want,
        }
    }
}

/// Whether a call gives what is wanted, for which no memory is needed.
fn is_given(
    alloc: Global,
    name: &str,
    (input, assembly, plan): (&[u8], &Assembly, &Plan),
    want: &[u8],
) -> Result<bool, AllocError> {
    match name {
        "encode" => is_spelled(alloc, input, want),
        "read" => is_read(alloc, input, assembly),
        "write an assembly" => Ok(assembly.write(alloc)?.as_slice() == want),
        "write a plan" => is_written(alloc, plan, want),
        "assemble" => is_assembled(alloc, input, want),
        _ => is_listed(alloc, input, want),
    }
}

/// Whether the first instruction of code is spelled so.
fn is_spelled(alloc: Global, code: &[u8], spelled: &[u8]) -> Result<bool, AllocError> {
    match fetch(code, 0) {
        Some((instr, _size)) => Ok(encode(alloc, &instr)?.as_slice() == spelled),
        None => Ok(false),
    }
}

/// Whether a text is read as an assembly with the name and the cells of this one.
fn is_read(alloc: Global, text: &[u8], assembly: &Assembly) -> Result<bool, AllocError> {
    match Assembly::read(alloc, text) {
        Ok(read) => Ok(read.name() == assembly.name() && has_cells(&read, assembly)),
        Err(AssemblyFault::Memory) => Err(AllocError),
        Err(_fault) => Ok(false),
    }
}

/// Whether the pieces of an assembly have the cells that those of another one have.
fn has_cells(read: &Assembly, assembly: &Assembly) -> bool {
    for piece in 0..assembly.piece_count() {
        if read.piece_count() <= piece {
            return false;
        }
        if read.cells(piece) != assembly.cells(piece) {
            return false;
        }
    }
    true
}

/// Whether a text is assembled to these bytes.
fn is_assembled(alloc: Global, text: &[u8], bytes: &[u8]) -> Result<bool, AllocError> {
    match assemble(alloc, text) {
        Ok(assembled) => Ok(assembled.as_slice() == bytes),
        Err(AsmFault::Memory) => Err(AllocError),
        Err(_fault) => Ok(false),
    }
}

/// Whether a container is listed so.
fn is_listed(alloc: Global, bytes: &[u8], listing: &[u8]) -> Result<bool, AllocError> {
    match Container::parse(bytes) {
        Ok(container) => Ok(list(alloc, &container)?.as_slice() == listing),
        Err(_fault) => Ok(false),
    }
}

#[test]
fn tells_a_want_of_memory(rt: HostRuntime) {
    assert_told(&rt, rt.alloc(), &OF_ASSEMBLIES);
}

#[test]
fn tells_a_want_of_memory_for_plans(rt: HostRuntime) {
    assert_told(&rt, rt.alloc(), &OF_PLANS);
}

#[test]
fn each_call_tells_a_want_of_memory(rt: HostRuntime) {
    for call in &CALLS {
        assert_call(&rt, rt.alloc(), call, false).expect(&rt, "memory");
    }
    for call in &CALLS {
        assert_call(&rt, rt.alloc(), call, true).expect(&rt, "memory");
    }
}

/// Asserts what comes of each answer, with ample memory and without.
fn assert_told(rt: &impl Abort, alloc: Global, all: &[[&str; 4]]) {
    // All with ample memory first: then the stack has grown farther than the calls need. It can't do
    // so once all memory was taken, since blocks lie beside it then.
    for asked in all {
        assert_right(rt, alloc, asked).expect(rt, "memory");
    }
    for asked in all {
        assert_wants(rt, alloc, asked).expect(rt, "memory");
    }
}

/// Asserts that the right answer comes, after a wrong input whose fault is written.
fn assert_right(rt: &impl Abort, alloc: Global, asked: &[&str; 4]) -> Result<(), AllocError> {
    answer_to(alloc, asked[0], b"")?;
    assert_with_memory(rt, alloc, asked[3], &mut Asked::new(alloc, asked)?);
    Ok(())
}

/// Asserts that a want of memory is told, or the right answer.
fn assert_wants(rt: &impl Abort, alloc: Global, asked: &[&str; 4]) -> Result<(), AllocError> {
    assert_in_want(rt, alloc, asked[3], &mut Asked::new(alloc, asked)?)
}

/// Asserts what comes of a call, with ample memory or while that is wanting.
fn assert_call(
    rt: &impl Abort,
    alloc: Global,
    call: &[&str; 5],
    is_wanting: bool,
) -> Result<(), AssemblyFault> {
    let mut trial = Call::new(alloc, call)?;
    if is_wanting {
        assert_in_want(rt, alloc, call[0], &mut trial)?;
    }
    assert_with_memory(rt, alloc, call[0], &mut trial);
    Ok(())
}

/// Asserts that what is right comes of a trial with ample memory.
fn assert_with_memory<T: Trial>(rt: &impl Abort, alloc: Global, words: &str, trial: &mut T) {
    let outcome = outcome_farther_down(alloc, words, trial);
    assert!(rt; matches!(outcome, Outcome::Right), "{words}");
}

/// Asserts that a want of memory comes of a trial while that is wanting, or what is right.
fn assert_in_want<T: Trial>(
    rt: &impl Abort,
    alloc: Global,
    words: &str,
    trial: &mut T,
) -> Result<(), AllocError> {
    let outcomes = outcomes_in_want(alloc, trial)?;
    let is_told = outcomes.want && outcomes.right && !outcomes.wrong;
    assert!(rt; is_told, "{words}");
    Ok(())
}

/// What comes of a trial that is made farther down the stack than those without memory.
#[inline(never)]
fn outcome_farther_down<T: Trial>(alloc: Global, words: &str, trial: &mut T) -> Outcome {
    // what is looked at after the trial stands above it on the stack
    let mut above = [0u8; DEEPER];
    let count = words.len().min(DEEPER);
    above[..count].copy_from_slice(&words.as_bytes()[..count]);
    let outcome = trial.outcome(alloc);
    if above.starts_with(&words.as_bytes()[..count]) {
        outcome
    } else {
        Outcome::Wrong
    }
}
