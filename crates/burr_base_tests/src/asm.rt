//! Plans as texts: their faults, what they are assembled to, and how containers are listed.

mod faults;
mod listing;
mod results;

use crate::answers::answer_to;
use crate::tables::{assert_answer, assert_tables};
use faults::*;
use listing::*;
pub use listing::{DUO_PLACES, LISTED_DUO, RING_PLACES, SECOND_LABEL_PLACES};
pub use results::{ANSWERED_LIFT, ANSWERED_LIFT_PLACES, DUO_2_PLACES};
use results::{PROCEDURES, *};
use std::alloc::{AllocError, Global};

/// Two cubes side by side: the first is taken aside.
pub const DUO: &str = "plan duo 2 3\n\
     proc main 0\n\
     label start\n\
     frame 0 -\n\
     cost 3\n\
     at 0 0 0 0 0\n\
     at 1 0 0 0 0\n\
     grip 0\n\
     aside -x 1\n\
     halt\n";

/// A rod in the hole of a ring: a counted loop of steps.
pub const RING: &str = "plan ring 2 11\n\
     proc main 0\n\
     label start\n\
     frame 0 -\n\
     cost 11\n\
     at 0 0 0 0 0\n\
     at 1 0 0 0 0\n\
     grip 0\n\
     push 2\n\
     store 0\n\
     label L\n\
     frame 0 0\n\
     slot 0 0 2\n\
     cost 4+2v0\n\
     at 0 0 0 0 2-1v0\n\
     at 1 0 0 0 0\n\
     step +z\n\
     down 0 L\n\
     aside +z 1\n\
     halt\n";

/// A dot in a bowl: the operator says how far it is lifted.
pub const CUP: &str = "plan cup 2 14\n\
     proc main 0\n\
     label start\n\
     frame 0 -\n\
     cost 14\n\
     at 0 0 0 0 0\n\
     at 1 0 0 0 0\n\
     grip 0\n\
     ask 0 2\n\
     store 0\n\
     load 0\n\
     store 1\n\
     label L\n\
     frame 0 0\n\
     slot 0 0 2\n\
     slot 1 0 2\n\
     guard 0+1v0-1v1\n\
     cost 3+3v1\n\
     at 0 0 0 0 0+1v0-1v1\n\
     at 1 0 0 0 0\n\
     down 1 M\n\
     aside +z 1\n\
     halt\n\
     label M\n\
     frame 0 0\n\
     slot 0 0 2\n\
     slot 1 0 1\n\
     guard -1+1v0-1v1\n\
     cost 5+3v1\n\
     at 0 0 0 0 -1+1v0-1v1\n\
     at 1 0 0 0 0\n\
     step +z\n\
     jump L\n";

/// A dot in a bowl: a procedure lifts it by one unit.
pub const LIFT: &str = "plan cup 2 11\n\
     proc main 0\n\
     label start\n\
     frame 0 -\n\
     cost 11\n\
     at 0 0 0 0 0\n\
     at 1 0 0 0 0\n\
     grip 0\n\
     push 0\n\
     call lift\n\
     push 1\n\
     call lift\n\
     aside +z 1\n\
     halt\n\
     proc lift 1\n\
     exit 0 0\n\
     at 0 0 0 0 1+1v0\n\
     at 1 0 0 0 0\n\
     label start\n\
     frame 0 0\n\
     slot 0 0 3\n\
     cost 2\n\
     at 0 0 0 0 0+1v0\n\
     at 1 0 0 0 0\n\
     step +z\n\
     ret\n";

/// Faults of texts in version 1.
const FAULTY: [[&str; 4]; 8] = [
    ["asm", RING, "@", HEADINGS],
    ["asm", RING, "@", FRAMES],
    ["asm", RING, "@", FORMS],
    ["asm", RING, "@", CODE],
    ["asm", "@", "@", ENDS],
    ["asm", RING, "@", WORKED],
    ["asm", "@", "@", WORKED_FRONTS],
    ["asm", LIFT, "@", PROCEDURES],
];

/// Texts at the limits of the format.
const AT_ALL_LIMITS: [[&str; 4]; 4] = [
    ["asm", LABELS_256, "@", BEHIND_LABELS],
    ["asm", PROCEDURES_16, "@", BEHIND_PROCEDURES],
    ["asm", BYTES_4093, "@", BEHIND_CODE],
    ["asm", AT_LIMITS, "@", "|right"],
];

const WITH_PLACES: [[&str; 4]; 3] = [
    ["places", DUO, DUO_PLACES, "|"],
    ["places", RING, RING_PLACES, "|"],
    ["places", CUP, CUP_PLACES, "|"],
];

const LISTED: [[&str; 4]; 6] = [
    ["listing", DUO, LISTED_DUO, "|"],
    ["listing", LIFT, LISTED_LIFT, "|"],
    ["listing", LIFT, LISTED_UPS, UPS],
    ["listing", ALL, ALL, "|"],
    ["listing", CODE_OF_DUO, LISTED_CODE_OF_DUO, CODES],
    ["asm", LIFT, "@", "|right"],
];

/// Faults of texts with results.
const FAULTY_RESULTS: [[&str; 4]; 3] = [
    ["asm", LIFT, "@", OF_VERSION_2],
    ["asm", ANSWERED_LIFT, "@", RESULTS],
    ["asm", EXIT, "@", BEHIND_EXIT],
];

const LISTED_RESULTS: [[&str; 4]; 3] = [
    ["places", ANSWERED_LIFT, ANSWERED_LIFT_PLACES, "|"],
    ["places", DUO_2, DUO_2_PLACES, "|"],
    ["listing", ALL_OF_EXITS, ALL_OF_EXITS, "|"],
];

/// The same plans in both versions.
const IN_BOTH_VERSIONS: [[&str; 4]; 3] = [
    ["size", RING, "@", SIZES_OF_RING],
    ["size", CUP, "@", SIZES_OF_CUP],
    ["size", LIFT, "@", SIZES_OF_LIFT],
];

#[test]
fn tells_faults_of_plans(rt: HostRuntime) {
    assert_tables(&rt, rt.alloc(), &FAULTY);
}

#[test]
fn takes_plans_at_limits(rt: HostRuntime) {
    assert_tables(&rt, rt.alloc(), &AT_ALL_LIMITS);
}

#[test]
fn lists_plans_with_places(rt: HostRuntime) {
    assert_tables(&rt, rt.alloc(), &WITH_PLACES);
}

#[test]
fn lists_plans(rt: HostRuntime) {
    assert_tables(&rt, rt.alloc(), &LISTED);
}

#[test]
fn tells_faults_of_results(rt: HostRuntime) {
    assert_tables(&rt, rt.alloc(), &FAULTY_RESULTS);
}

#[test]
fn lists_plans_with_results(rt: HostRuntime) {
    assert_tables(&rt, rt.alloc(), &LISTED_RESULTS);
}

#[test]
fn takes_plans_in_both_versions(rt: HostRuntime) {
    assert_tables(&rt, rt.alloc(), &IN_BOTH_VERSIONS);
}

/// The text of the ring with comments of any bytes and empty lines between its lines.
fn commented_ring(alloc: Global) -> Result<Vec<u8>, AllocError> {
    let mut text = Vec::new(alloc);
    for line in RING.lines() {
        text.extend_from_slice(b";\x00\x09\x0d\x7f\x80\xff\n\n")?;
        text.extend_from_slice(line.as_bytes())?;
        text.push(b'\n')?;
    }
    Ok(text)
}

#[test]
fn takes_any_bytes_after_a_semicolon(rt: HostRuntime) {
    let text = commented_ring(rt.alloc()).expect(&rt, "memory");
    let found = answer_to(rt.alloc(), "places", &text).expect(&rt, "memory");
    assert_answer(&rt, "comments", &found, RING_PLACES);
}

// Plans at their limits, and one past them.

/// A plan with 256 labels, up to the last line of its code.
pub const LABELS_256: &str = "\
plan duo 2 3/proc main 0/label start/frame 0 -/cost 1/at 0 apart/at 1 apart/\
<255 add/label m%/frame 0 -/cost 1/at 0 apart/at 1 apart/>@/";

/// Ends of a plan with 256 labels: line 7 + 6 * 255 is the last of the last frame.
pub const BEHIND_LABELS: &str = "\
halt|right
halt/label m256|P4 { line: 1539 }
halt/label m255|P2 { line: 1539 }
";

/// A plan with 16 procedures.
pub const PROCEDURES_16: &str = "\
plan duo 2 3/proc main 0/label start/frame 0 -/cost 1/at 0 apart/at 1 apart/call q15/halt/\
<15 proc q% 4/exit 0 -/at 0 apart/at 1 apart/\
label start/frame 0 -/cost 1/at 0 apart/at 1 apart/ret/>@";

/// Ends of a plan with 16 procedures: 9 lines of main and 10 of each other procedure.
pub const BEHIND_PROCEDURES: &str = "\
|right
proc q16 0/|P4 { line: 160 }
proc q16 5/|P3 { line: 160 }
proc q15 0/|P2 { line: 160 }
proc q15 5/|P2 { line: 160 }
proc q15 x/|P1 { line: 160 }
";

/// A plan with 4,093 bytes of code, up to its last lines.
pub const BYTES_4093: &str = "\
plan duo 2 3/proc main 0/label start/frame 0 -/cost 1/at 0 apart/at 1 apart/<4093 add/>@/";

/// Ends of a plan with 4,093 bytes of code.
pub const BEHIND_CODE: &str = "\
push 1|right
add/add/byte 00|right
jump start|right
grip 0|P4 { line: 4101 }
grip -|P3 { line: 4101 }
down 0 start|P4 { line: 4101 }
pick start none|P4 { line: 4101 }
jump start/byte 00|P4 { line: 4102 }
";

/// A plan that has of all things as many as it may: pieces, procedures, parameters, labels and
/// bytes of code in the last procedure, and in the last frame slots, guards and operands, their
/// numbers at the ends of their ranges. The labels of the last procedure stand at each 16th byte.
pub const AT_LIMITS: &str = "\
plan abcdefghijklmnopqrstuvwxyz012345 32 1000000/proc main 0/\
label start/frame 31 0,1,2,3,4,5,6,7,8,9,10,11,12,13,14,15,16,17,18,19,20,21,22,23,24,25,26,27,\
28,29,30,31/cost 0/at 0 apart/<31 at % apart/>\
byte 10/byte 21/byte 23/byte 02/byte 00/byte 01/byte 00/byte 02/byte 24/byte 0f/byte 20/\
byte 00/byte ff/byte 12/byte 05/byte 1f/\
label more/frame 31 0,1,2,3,4,5,6,7,8,9,10,11,12,13,14,15,16,17,18,19,20,21,22,23,24,25,26,27,\
28,29,30,31/cost 0/at 0 apart/<31 at % apart/>\
byte 26/byte 00/byte 11/byte 03/\
<14 proc q% 4/\
exit 31 0,1,2,3,4,5,6,7,8,9,10,11,12,13,14,15,16,17,18,19,20,21,22,23,24,25,26,27,28,29,30,31/\
at 0 apart/<31 at % apart/>\
label start/frame 31 0,1,2,3,4,5,6,7,8,9,10,11,12,13,14,15,16,17,18,19,20,21,22,23,24,25,26,27,\
28,29,30,31/cost 0/at 0 apart/<31 at % apart/>\
byte 10/byte 21/byte 23/byte 02/byte 00/byte 01/byte 00/byte 02/byte 24/byte 0f/byte 20/\
byte 00/byte ff/byte 12/byte 05/byte 1f/\
label more/frame 31 0,1,2,3,4,5,6,7,8,9,10,11,12,13,14,15,16,17,18,19,20,21,22,23,24,25,26,27,\
28,29,30,31/cost 0/at 0 apart/<31 at % apart/>\
byte 26/byte 00/byte 11/byte 03/>\
proc last 4/\
exit 31 0,1,2,3,4,5,6,7,8,9,10,11,12,13,14,15,16,17,18,19,20,21,22,23,24,25,26,27,28,29,30,31/\
at 0 apart/<31 at % apart/>\
<255 label m%/frame 31 0,1,2,3,4,5,6,7,8,9,10,11,12,13,14,15,16,17,18,19,20,21,22,23,24,25,26,\
27,28,29,30,31/cost 0/at 0 apart/<31 at % apart/>\
byte 10/byte 21/byte 23/byte 02/byte 00/byte 01/byte 00/byte 02/byte 24/byte 0f/byte 20/\
byte 00/byte ff/byte 12/byte 05/byte 1f/>\
label last/frame 31 0,1,2,3,4,5,6,7,8,9,10,11,12,13,14,15,16,17,18,19,20,21,22,23,24,25,26,27,\
28,29,30,31/slot 0 -32767 32767/<7 slot % -32767 32767/>\
<4 guard -2147483648-32768v0+32767v1-1v2+1v3-32768v4+32767v5-1v6+1v7/>\
<8 stack -2147483648-32768v0+32767v1-1v2+1v3-32768v4+32767v5-1v6+1v7/>\
cost -2147483648-32768v0+32767v1-1v2+1v3-32768v4+32767v5-1v6+1v7/\
at 0 31 -2147483648-32768v0+32767v1-1v2+1v3-32768v4+32767v5-1v6+1v7 \
-2147483648-32768v0+32767v1-1v2+1v3-32768v4+32767v5-1v6+1v7 \
-2147483648-32768v0+32767v1-1v2+1v3-32768v4+32767v5-1v6+1v7/\
<31 at % 31 -2147483648-32768v0+32767v1-1v2+1v3-32768v4+32767v5-1v6+1v7 \
-2147483648-32768v0+32767v1-1v2+1v3-32768v4+32767v5-1v6+1v7 \
-2147483648-32768v0+32767v1-1v2+1v3-32768v4+32767v5-1v6+1v7/>\
byte 10/byte 21/byte 23/byte 02/byte 00/byte 01/byte 00/byte 02/byte 24/byte 0f/byte 20/\
byte 00/byte ff/byte 12/byte 05/byte 1f/@";
