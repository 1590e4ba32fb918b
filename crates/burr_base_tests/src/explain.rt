//! Which lines are explained, and how an explanation is written.
use crate::asserts::{assert_at, assert_case};
use burr_explain::{explanation_of, put_explanation};
use burr_io::{WriteFault, Writing};
use std::alloc::Global;
use std::io::Cursor;
use std::process::Abort;

/// What is asked for, a line each, and after `=` the heading that answers it, or `nothing`: lines as
/// they are printed, and in other forms.
const LINES: &str = "\
input=refused input
refused input=refused input
answers=refused answers
refused answers line 2=refused answers
refused sheet line 3=refused sheet
refused frame line 12=refused frame
refused pair=refused pair
a4=refused A4
A4 in any words=refused A4
REFUSED v15=refused V15
refused V15 proc 0 pc 24 pieces A B point 0 1=refused V15
refused A8 line 7 A B=refused A8
refused C1 at 12=refused C1
notfree=trap 3 NotFree
NOTAPART=trap 15 NotApart
Trap 17=trap 17 ParamWritten
trap 3 NotFree proc 0 pc 5 after 1 steps=trap 3 NotFree
waiting 0 2 after 1 steps=waiting
Stopped after 1000000 steps=stopped
apart in 3 steps=apart
levels 8.1.2=levels
levels -=levels
accepted cost 14 budget 14 looks 6=accepted
refused command=refused command
refused S2=refused S2
after 1 steps asks 0 2=after
after 2 steps proc 0 pc 10=after
move=move
1 t0 A -x 0 out=move
12 t31 A,B +z 3=move
1 0 accepted cost 14 budget 14 looks 6=accepted
12 1 refused V16 proc 0 pc 5 pieces A B=refused V16
3 1 REFUSED p2 line 9=refused P2
4 1 refused pair=refused pair
5 1 1 t0 A -x 0 out=move
5 1 1 1 refused pair=move
1 0=move
";

/// Each refusal of an assembly, a container, a plan text and a plan.
const REFUSALS: &str = "\
A1=refused A1
A2=refused A2
A3=refused A3
A4=refused A4
A5=refused A5
A6=refused A6
A7=refused A7
A8=refused A8
C1=refused C1
C2=refused C2
C3=refused C3
C4=refused C4
C5=refused C5
C6=refused C6
P1=refused P1
P2=refused P2
P3=refused P3
P4=refused P4
P5=refused P5
V1=refused V1
V2=refused V2
V3=refused V3
V4=refused V4
V5=refused V5
V6=refused V6
V7=refused V7
V8=refused V8
V9=refused V9
V10=refused V10
V11=refused V11
V12=refused V12
V13=refused V13
V14=refused V14
V15=refused V15
V16=refused V16
V17=refused V17
V18=refused V18
V19=refused V19
V20=refused V20
V21=refused V21
V22=refused V22
V23=refused V23
V24=refused V24
V25=refused V25
V26=refused V26
V27=refused V27
V28=refused V28
S1=refused S1
S2=refused S2
S3=refused S3
S4=refused S4
";

/// Each trap by its number and by its name.
const TRAPS: &str = "\
1=trap 1 Collision
Collision=trap 1 Collision
2=trap 2 GripOff
GripOff=trap 2 GripOff
3=trap 3 NotFree
NotFree=trap 3 NotFree
4=trap 4 BadGroup
BadGroup=trap 4 BadGroup
5=trap 5 TrayInUse
TrayInUse=trap 5 TrayInUse
6=trap 6 MissingOperand
MissingOperand=trap 6 MissingOperand
7=trap 7 StackFull
StackFull=trap 7 StackFull
8=trap 8 EmptySlot
EmptySlot=trap 8 EmptySlot
9=trap 9 BadJump
BadJump=trap 9 BadJump
10=trap 10 BadCode
BadCode=trap 10 BadCode
11=trap 11 BadCall
BadCall=trap 11 BadCall
12=trap 12 BadCount
BadCount=trap 12 BadCount
13=trap 13 NumberRange
NumberRange=trap 13 NumberRange
14=trap 14 OffBench
OffBench=trap 14 OffBench
15=trap 15 NotApart
NotApart=trap 15 NotApart
16=trap 16 Misplaced
Misplaced=trap 16 Misplaced
17=trap 17 ParamWritten
ParamWritten=trap 17 ParamWritten
";

/// What is not explained, the first line empty.
const UNKNOWN: &str = "\
=nothing
 A1=nothing
A=nothing
A0=nothing
A9=nothing
A01=nothing
C7=nothing
P6=nothing
V0=nothing
V29=nothing
S0=nothing
S5=nothing
0=nothing
01=nothing
18=nothing
-1=nothing
-1 t0 A=nothing
3 3 cannot read=nothing
4 4 no memory=nothing
1 0 =nothing
1a t0 A=nothing
trap=nothing
trap3=nothing
trap  3=nothing
trap trap 3=nothing
refused=nothing
refused refused A1=nothing
refused A9 line 2=nothing
NotFre=nothing
NotFrees=nothing
moves=nothing
step=nothing
--help=nothing
";

/// What is written for a line; `nothing` where it has no explanation.
fn written(rt: &impl Abort, alloc: Global, line: &str) -> Vec<u8> {
    let mut bytes = Vec::new(alloc);
    let Some(entry) = explanation_of(line.as_bytes()) else {
        bytes.extend_from_slice(b"nothing\n").expect(rt, "memory");
        return bytes;
    };
    let put = put_explanation(entry, &mut Writing::new(&mut bytes));
    assert_case(rt, line, put.is_ok());
    bytes
}

/// Whether a text begins with a line.
fn is_headed(text: &str, heading: &str) -> bool {
    match text.strip_prefix(heading) {
        Some(rest) => rest.starts_with('\n'),
        None => false,
    }
}

/// Whether no line of a text has more than 80 bytes.
fn has_short_lines(text: &str) -> bool {
    for line in text.lines() {
        if line.len() > 80 {
            return false;
        }
    }
    true
}

/// Asserts the heading of what is written for a line, and that no line of that has more than 80
/// characters.
fn assert_heading(rt: &impl Abort, alloc: Global, case: &str) {
    let (line, heading) = case.split_once('=').expect(rt, "a case has a heading");
    let bytes = written(rt, alloc, line);
    let text = str::from_utf8(&bytes).expect(rt, "a text");
    assert_case(rt, text, is_headed(text, heading));
    assert_case(rt, text, has_short_lines(text));
}

/// Asserts the headings of what is written for lines.
fn assert_headings(rt: &impl Abort, alloc: Global, cases: &str) {
    for case in cases.lines() {
        assert_heading(rt, alloc, case);
    }
}

#[test]
fn explains_printed_lines(rt: HostRuntime) {
    assert_headings(&rt, rt.alloc(), LINES);
}

#[test]
fn explains_refusals_and_traps(rt: HostRuntime) {
    assert_headings(&rt, rt.alloc(), REFUSALS);
    assert_headings(&rt, rt.alloc(), TRAPS);
}

#[test]
fn explains_nothing_else(rt: HostRuntime) {
    assert_headings(&rt, rt.alloc(), UNKNOWN);
}

/// What is written for an orientation that is not one of the 24 turns.
const ORIENTATION: &str = "\
refused A4

The orientation is not one of the 24 turns. It says where the shape's x, y and
z axes point, as `+x+y+z` or `-y+x+z`. Mirrors are not among them.

Usual cause: one sign turned round alone, a mirror; or an axis named twice.

Example: the x axis alone is turned round

    piece B cube -x+y+z 1 0 0
";

#[test]
fn writes_a_heading_and_a_paragraph_for_each_part(rt: HostRuntime) {
    let text = written(&rt, rt.alloc(), "A4");
    assert!(rt; text.as_slice() == ORIENTATION.as_bytes());
}

/// Asserts that a sink takes a front of what is written, where it has room for no more, and that
/// this failure is told.
fn assert_front(rt: &impl Abort, front: &[u8]) {
    let entry = explanation_of(b"waiting").expect(rt, "an explanation");
    let mut room = [0; 1024];
    let place = room.get_mut(..front.len()).expect(rt, "room");
    let put = put_explanation(entry, &mut Writing::new(Cursor::new(place)));
    assert_at(rt, front.len(), put == Err(WriteFault));
    assert_at(rt, front.len(), room.starts_with(front));
}

#[test]
fn tells_a_sink_that_fails(rt: HostRuntime) {
    let whole = written(&rt, rt.alloc(), "waiting");
    for count in 0..whole.len() {
        assert_front(&rt, &whole[..count]);
    }
}
