//! Containers: what is read of their bytes, the first fault of bytes that are none, and plans that
//! are written.
use crate::asm::{
    ANSWERED_LIFT_PLACES, DUO_2_PLACES, DUO_PLACES, RING_PLACES, SECOND_LABEL_PLACES,
};
use crate::tables::assert_tables;
use burr_container::{Frame, Place, Plan, PlanForm, Procedure};
use burr_testing::plans::{DUO_PLAN, RESULT_PLAN, RING_PLAN};
use std::alloc::{AllocError, Global};

/// Containers and what they hold.
const RIGHT: [[&str; 4]; 5] = [
    ["container", DUO_PLAN, DUO_PLACES, "|"],
    ["container", RING_PLAN, RING_PLACES, "|"],
    ["container", DUO_PLAN, SECOND_LABEL_PLACES, SECOND_LABEL],
    ["container", DUO_PLAN, DUO_2_PLACES, IN_VERSION_2],
    ["container", RESULT_PLAN, ANSWERED_LIFT_PLACES, "|"],
];

const FAULTY: [[&str; 4]; 4] = [
    ["container", DUO_PLAN, "@", OF_DUO],
    ["container", RING_PLAN, "@", OF_RING],
    ["container", RESULT_PLAN, "@", OF_ANSWERED_LIFT],
    ["container", "@", "@", FRONTS],
];

#[test]
fn reads_containers(rt: HostRuntime) {
    assert_tables(&rt, rt.alloc(), &RIGHT);
}

#[test]
fn tells_faults_of_containers(rt: HostRuntime) {
    assert_tables(&rt, rt.alloc(), &FAULTY);
}

#[test]
fn writes_a_plan(rt: HostRuntime) {
    assert_tables(&rt, rt.alloc(), &[["plan", "@", "@", PLANS]]);
}

/// Whether a plan is within the format with another version, other pieces and another budget.
fn fits_with(plan: &mut Plan, version: u16, pieces: u8, budget: u32) -> bool {
    plan.version = version;
    plan.pieces = pieces;
    plan.budget = budget;
    plan.fits()
}

#[test]
fn knows_a_plan_outside_the_format(rt: HostRuntime) {
    let mut plan = two_cubes(rt.alloc()).expect(&rt, "memory");
    assert!(rt; !fits_with(&mut plan, 1, 2, 1_000_001));
    assert!(rt; fits_with(&mut plan, 1, 2, 1_000_000));
    assert!(rt; fits_with(&mut plan, 2, 2, 1_000_000));
    assert!(rt; !fits_with(&mut plan, 3, 2, 1_000_000));
    assert!(rt; !fits_with(&mut plan, 2, 3, 1_000_000));
}

/// The plan of the two cubes.
pub fn two_cubes(alloc: Global) -> Result<Plan, AllocError> {
    Ok(Plan {
        version: 1,
        name: Vec::from_slice(alloc, b"duo")?,
        pieces: 2,
        budget: 3,
        procs: Vec::from_array(alloc, [main(alloc)?])?,
    })
}

/// Its procedure.
fn main(alloc: Global) -> Result<Procedure, AllocError> {
    Ok(Procedure {
        params: 0,
        results: 0,
        exit: None,
        labels: Vec::from_array(alloc, [(0, start(alloc)?)])?,
        code: Vec::from_slice(alloc, &[0x10, 0, 0, 0, 1, 0x12, 1, 1, 0])?,
    })
}

/// What holds at its label.
fn start(alloc: Global) -> Result<Frame, AllocError> {
    Ok(Frame {
        tray: 0,
        grip: 0,
        slots: [None; 8],
        guards: Vec::new(alloc),
        stack: Vec::new(alloc),
        cost: PlanForm {
            constant: 3,
            coefs: [0; 8],
        },
        places: Vec::from_array(alloc, [HOME, HOME])?,
    })
}

/// A form of a plan that is 0 everywhere.
const ZERO: PlanForm = PlanForm {
    constant: 0,
    coefs: [0; 8],
};

/// A place in tray 0, where the piece begins.
const HOME: Place = Place::On(0, ZERO, ZERO, ZERO);

/// A second label at the second byte of the code, with the frame of the first.
const SECOND_LABEL: &str = "\
9 00 02|\
20 00 00 00 00 00 00 00 00 00 00 00 00/00 01/00/00 00 00 00/00/00/00/00 00 00 03/00/\
00 00 00 00 00 00 00 00 00 00 00 00/00/00 00 00 00 00 00 00 00 00 00 00 00|
";

/// Fields of the two cubes that have version 2.
const IN_VERSION_2: &str = "\
2 00 02|8 00/00|
";

/// Fields of the two cubes, and the fault.
const OF_DUO: &str = "\
; magic and version
1 58 50 4c 4e|C2 { at: 0 }
2 00 00|C3 { at: 4 }
2 00 03|C3 { at: 4 }
2 ff ff|C3 { at: 4 }
; numbers out of range
3 00 00 00 00|C4 { at: 6 }
3 00 0f 42 41|C4 { at: 6 }
4 01|C4 { at: 10 }
4 21|C4 { at: 10 }
5 00|C4 { at: 11 }
5 21|C4 { at: 11 }
6 31 75 6f|C4 { at: 12 }
6 31 61 62|C4 { at: 12 }
6 64 75 20|C4 { at: 12 }
7 00|C4 { at: 15 }
7 11|C4 { at: 15 }
8 01|C4 { at: 16 }
9 00 00|C4 { at: 17 }
9 01 01|C4 { at: 17 }
11 20|C4 { at: 21 }
12 00 00 00 04|C4 { at: 22 }
14 05|C4 { at: 27 }
15 09|C4 { at: 28 }
17 20|C4 { at: 33 }
21 00 00|C4 { at: 59 }
21 10 01|C4 { at: 59 }
17 fe|C4 { at: 33 }
; a first label that isn't at 0
10 00 01|C5 { at: 19 }
; a byte after the end
22 10 00 00 00 01 12 01 01 00/00|C6 { at: 70 }
";

/// The same of the rod in a ring.
const OF_RING: &str = "\
; labels that don't rise, and a label after the end of the code
21 00 00|C5 { at: 60 }
21 ff ff|C4 { at: 118 }
; ends of ranges
25 80 00|C4 { at: 68 }
26 ff ff|C4 { at: 70 }
";

/// The same of the procedure with a result.
const OF_ANSWERED_LIFT: &str = "\
; the version
2 00 00|C3 { at: 4 }
2 00 03|C3 { at: 4 }
2 00 01|C4 { at: 17 }
; counts of results, of main and of the other
9 01|C4 { at: 17 }
25 03|C4 { at: 75 }
; parameters
24 05|C4 { at: 74 }
; the range of the result, and the count of guards
28 80 00|C4 { at: 81 }
29 ff ff|C4 { at: 83 }
30 05|C4 { at: 85 }
";

/// Bytes that end too early, or have a fault before.
const FRONTS: &str = "\
58 58|C1 { at: 2 }
; each field once all its bytes are there: the magic, the version, and the length before the name
58 58 58 58|C2 { at: 0 }
42 50 4c 4e/00|C1 { at: 5 }
42 50 4c 4e/00 00|C3 { at: 4 }
42 50 4c 4e/00 01/00 00 00 0b/02/00|C4 { at: 11 }
42 50 4c 4e/00 01/00 00 00 0b/02/21|C4 { at: 11 }
42 50 4c 4e/00 01/00 00 00 0b/02/04/31 32 33|C1 { at: 15 }
42 50 4c 4e/00 01/00 00 00 0b/02/04/31 32 33 34|C4 { at: 12 }
; the lowest number of a range before the highest
42 50 4c 4e/00 01/00 00 00 0b/02/04/72 69 6e 67/01/00/00 02/00 00/00/00 00 00 00/00/00/00/\
00 00 00 0b/00/00 00 00 00 00 00 00 00 00 00 00 00/00/00 00 00 00 00 00 00 00 00 00 00 00/00 0a/\
00/00 00 00 01/01/80 00|C4 { at: 68 }
";

/// The bytes of the plan of the two cubes.
const PLANS: &str = "\
42 50 4c 4e/00 01/00 00 00 03/02/03/64 75 6f/01/00/00 01/00 00/00/00 00 00 00/00/00/00/\
00 00 00 03/00/00 00 00 00 00 00 00 00 00 00 00 00/00/00 00 00 00 00 00 00 00 00 00 00 00/00 09/\
10 00 00 00 01 12 01 01 00|right
";
