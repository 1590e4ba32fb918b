//! What faults say of themselves.
use crate::tables::assert_answer;
use burr_asm::AsmFault;
use burr_assembly::AssemblyFault;
use burr_container::ContainerFault;
use burr_forms::FormTooLarge;
use burr_io::{IoFailed, WriteFault};
use std::alloc::{AllocError, Global};
use std::fmt::{Display, Write};
use std::process::Abort;

/// The text of each fault with a place.
#[test]
fn messages_of_faults(rt: HostRuntime) {
    assert_messages(&rt, rt.alloc(), &OF_ASSEMBLIES, SAID_OF_ASSEMBLIES);
    assert_messages(&rt, rt.alloc(), &OF_CONTAINERS, SAID_OF_CONTAINERS);
    assert_messages(&rt, rt.alloc(), &OF_PLANS, SAID_OF_PLANS);
}

/// The text of each fault without a place.
#[test]
fn messages_of_faults_without_places(rt: HostRuntime) {
    let words = format!(in rt.alloc(); "{IoFailed}; {WriteFault}; {FormTooLarge}").expect(
        &rt, "memory",
    );
    let wanted = "the stream has failed; the text was not written whole; \
a number of the form lies below -2^40 or above 2^40";
    assert!(rt; words.as_str() == wanted);
}

/// Asserts the texts of faults, a line each.
fn assert_messages<F: Display>(rt: &impl Abort, alloc: Global, faults: &[F], wanted: &str) {
    let said = messages_of(alloc, faults).expect(rt, "memory");
    assert_answer(rt, "messages", &said, wanted);
}

/// The texts of faults, a line each.
fn messages_of<F: Display>(alloc: Global, faults: &[F]) -> Result<String, AllocError> {
    let mut said = String::new(alloc);
    for fault in faults {
        writeln!(said, "{fault}")?;
    }
    Ok(said)
}

const OF_ASSEMBLIES: [AssemblyFault; 9] = [
    AssemblyFault::A1 { line: 1 },
    AssemblyFault::A2 { line: 2 },
    AssemblyFault::A3 { line: 5 },
    AssemblyFault::A4 { line: 7 },
    AssemblyFault::A5 { line: 10 },
    AssemblyFault::A6 { line: 6 },
    AssemblyFault::A7 { line: 130 },
    AssemblyFault::A8 {
        line: 38,
        earlier: 0,
        piece: 31,
    },
    AssemblyFault::Memory,
];

const SAID_OF_ASSEMBLIES: &str = "\
line 1: no line of this form may stand here, or the text ends too early
line 2: the name is badly formed, or taken already
line 5: the drawing is too large, uneven, or not of 1 to 512 cells
line 7: the orientation is none of the 24
line 10: a coordinate is outside -64..64
line 6: there is no shape of this name
line 130: there are more than 32 shapes or pieces, or the text ends with fewer than 2 pieces
line 38: piece 31 shares a cell with piece 0 (numbered from 0)
no memory
";

const OF_CONTAINERS: [ContainerFault; 6] = [
    ContainerFault::C1 { at: 69 },
    ContainerFault::C2 { at: 0 },
    ContainerFault::C3 { at: 4 },
    ContainerFault::C4 { at: 6 },
    ContainerFault::C5 { at: 19 },
    ContainerFault::C6 { at: 70 },
];

const SAID_OF_CONTAINERS: &str = "\
at 69: the bytes end too early
at 0: the bytes don't begin with `BPLN`
at 4: the version isn't 1 or 2
at 6: a number, or the name, is out of its range
at 19: the first label isn't at 0, or the labels don't rise
at 70: bytes follow the last procedure
";

const OF_PLANS: [AsmFault; 6] = [
    AsmFault::P1 { line: 2 },
    AsmFault::P2 { line: 18 },
    AsmFault::P3 { line: 14 },
    AsmFault::P4 { line: 4102 },
    AsmFault::P5 { line: 3 },
    AsmFault::Memory,
];

const SAID_OF_PLANS: &str = "\
line 2: no line of this form may stand here, or the text ends too early
line 18: the name is taken already, or nothing has it
line 14: a number, a set or a form is out of its range, or not in rising order
line 4102: one more than a plan may have, or a label where none may stand
line 3: here the first label of a procedure is missing, or the frame of a label
no memory
";
