//! The stepper by lines of commands: what is put for each, also where sinks fail or memory is
//! wanting.

use crate::calls::{assembly_of, container_of, rows_of};
use crate::puts::plan_of;
use crate::tables::{How, Kind, bytes_of, lines_of, table_of};
use crate::want::memory_taken;
use burr_blocking::RowTables;
use burr_io::Writing;
use burr_judge::{CommandHandler, StepFault};
use burr_step::{StepRefusal, Stepper};
use burr_testing::{MemoryHog, Narrow};
use burr_verify::accept;
use std::alloc::{AllocError, Global};
use std::io::{Cursor, Write};
use std::process::Abort;

#[test]
fn puts_what_each_command_comes_to(rt: HostRuntime) {
    for dialogue in DIALOGUES.split("\n\n") {
        assert_dialogue(&rt, rt.alloc(), dialogue);
    }
}

/// Asserts a dialogue: an assembly and a plan, edits, and lines of commands.
fn assert_dialogue(rt: &impl Abort, alloc: Global, dialogue: &'static str) {
    let (head, rest) = dialogue.split_once('\n').expect(rt, "edits");
    let (edits, lines) = rest.split_once('\n').expect(rt, "lines");
    let table = table_of(rt, Kind::Check, How::Plainly, head);
    let bytes = plan_of(rt, alloc, &table, edits);
    let assembly = assembly_of(rt, alloc, table.assembly);
    assert_steps(rt, alloc, &rows_of(rt, alloc, &assembly), &bytes, lines);
}

/// Asserts what lines of commands put for a container's plan.
fn assert_steps(rt: &impl Abort, alloc: Global, rows: &RowTables<'_>, bytes: &[u8], lines: &str) {
    let container = container_of(rt, bytes);
    let Ok(accepted) = accept(&container, rows) else {
        panic!(rt; "refused");
    };
    let mut stepper = Stepper::new(alloc, &accepted).expect(rt, "memory");
    for line in lines.lines() {
        if !line.starts_with('#') {
            assert_line(rt, alloc, &mut stepper, line);
        }
    }
}

/// Asserts a line of a dialogue: how a command is given, the command, and what is put.
fn assert_line(rt: &impl Abort, alloc: Global, stepper: &mut Stepper<'_>, line: &str) {
    let (given, wanted) = line.split_once('=').expect(rt, "what is put");
    let (how, words) = given.split_once(": ").unwrap_or(("", given));
    let wanted = lines_of(rt, alloc, wanted);
    let is_right = match how {
        "bytes" => puts(alloc, stepper, &bytes_of(rt, alloc, words), &wanted),
        "fronts" => puts_fronts(alloc, stepper, words.as_bytes(), &wanted),
        "wants" => wants_memory(stepper, words.as_bytes(), memory_taken(rt, alloc)),
        "poorly" => puts_poorly(stepper, words.as_bytes(), &wanted, memory_taken(rt, alloc)),
        "call" => told(alloc, stepper, words).expect(rt, "memory") == wanted,
        _ => puts(alloc, stepper, words.as_bytes(), &wanted),
    };
    assert!(rt; is_right, "{line}");
}

/// Takes a command and puts what it comes to.
fn put<W: Write>(
    stepper: &mut Stepper<'_>,
    line: &[u8],
    writer: &mut W,
) -> Result<bool, StepFault> {
    stepper.command(line, &mut Writing::new(writer))
}

/// Whether a command puts this: nothing where no more lines are taken.
fn puts(alloc: Global, stepper: &mut Stepper<'_>, line: &[u8], wanted: &str) -> bool {
    let mut written = Vec::new(alloc);
    let told = put(stepper, line, &mut written);
    told == Ok(!wanted.is_empty()) && written.as_slice() == wanted.as_bytes()
}

/// Whether a command of one step or none puts this, and a sink that fails has the front of it that
/// it has room for; the command counts as taken all the same.
fn puts_fronts(alloc: Global, stepper: &mut Stepper<'_>, line: &[u8], wanted: &str) -> bool {
    let before = stepper.steps();
    let is_right = puts(alloc, stepper, line, wanted);
    let after = stepper.steps();
    let steps = if after == before { 0 } else { 1 };
    for room in 0..wanted.len() {
        let front = wanted.as_bytes().get(..room).unwrap_or(b"");
        if stepper.back(steps).is_err() || !puts_front(alloc, stepper, line, front) {
            return false;
        }
        if stepper.steps() != after {
            return false;
        }
    }
    is_right
}

/// Whether of what a command puts a sink has this front, and then fails.
fn puts_front(alloc: Global, stepper: &mut Stepper<'_>, line: &[u8], front: &[u8]) -> bool {
    let mut writer = Narrow::new(alloc, front.len(), None);
    let told = put(stepper, line, &mut writer);
    told == Err(StepFault::Write) && writer.taken.as_slice() == front
}

/// Whether a command to answer wants memory while all of it is held, and then puts nothing, and makes
/// no step; and the stepper's own call does, too.
fn wants_memory(stepper: &mut Stepper<'_>, line: &[u8], hog: MemoryHog) -> bool {
    let (steps, asks) = (stepper.steps(), stepper.asks());
    let mut room = [0u8; 40];
    let mut written = Cursor::new(room.as_mut_slice());
    let told = put(stepper, line, &mut written);
    let refused = stepper.answer(0);
    drop(hog);
    let is_still = stepper.steps() == steps && stepper.asks() == asks;
    let wants = told == Err(StepFault::Memory) && refused == Err(StepRefusal::Memory);
    wants && is_still && written.position() == 0
}

/// Whether a command puts this while all memory is held.
fn puts_poorly(stepper: &mut Stepper<'_>, line: &[u8], wanted: &str, hog: MemoryHog) -> bool {
    let mut room = [0u8; 128];
    let mut written = Cursor::new(room.as_mut_slice());
    let told = put(stepper, line, &mut written);
    drop(hog);
    let count = written.position() as usize;
    told == Ok(true) && room.get(..count) == Some(wanted.as_bytes())
}

/// What a call of the stepper's own tells, how many steps it has made then, and what it asks.
fn told(alloc: Global, stepper: &mut Stepper<'_>, call: &str) -> Result<String, AllocError> {
    let told = match call {
        "forward" => stepper.forward(),
        "answer 1" => stepper.answer(1),
        "answer 2" => stepper.answer(2),
        "answer 5" => stepper.answer(5),
        "back 1" => stepper.back(1),
        _ => stepper.back(2),
    };
    let (steps, asks) = (stepper.steps(), stepper.asks());
    format!(in alloc; "{told:?} after {steps} asks {asks:?}")
}

/// The list of the answers that are kept grows at the first answer, and later too.
#[test]
fn tells_a_want_of_memory_for_an_answer(rt: HostRuntime) {
    assert_dialogue(&rt, rt.alloc(), WANTING);
}

// Lines of commands for the stepper, on plans that ask, call and loop, and what is put for each.

/// Each dialogue begins with an assembly and a plan, and with edits of this on the next line. Then
/// comes a command a line, and after `=` what is put for it, with `/` for each line end; nothing
/// where no more lines are taken. Before `: ` stands how it is given: `bytes` by digits of its bytes,
/// `fronts` where sinks fail, too, `wants` and `poorly` where no memory can be had, which it wants or
/// not, and `call` by the stepper's own call, whose words follow.
pub const DIALOGUES: &str = "\
cup | cup
none
# steps, answers, and the way back
back 0=after 0 steps/
answer 1=refused S3/
forward=after 1 steps asks 0 2/
forward=refused S2/
over=refused S2/
until 0 0=refused S2/
answer 5=refused S3/
answer -1=refused S3/
answer 1=after 2 steps/
answer 1=refused S3/
back 0=after 2 steps/
show=after 2 steps proc 0 pc 10/tray 0 grip A/slots - - - - - - - -/stack 1/A tray 0 at 0 0 0/B tray 0 at 0 0 0/
back 2=after 0 steps/
show=after 0 steps proc 0 pc 0/tray 0 grip -/slots - - - - - - - -/stack -/A tray 0 at 0 0 0/B tray 0 at 0 0 0/
back 1=refused S4/
back 4294967295=refused S4/
forward=after 1 steps asks 0 2/
answer 2=after 2 steps/
back 3=refused S4/
back 1=after 1 steps asks 0 2/
answer 0=after 2 steps/

cup | cup
none
# the stepper's own calls
call: forward=Ok(()) after 1 asks Some((0, 2))
call: forward=Err(S2) after 1 asks Some((0, 2))
call: answer 5=Err(S3) after 1 asks Some((0, 2))
call: answer 1=Ok(()) after 2 asks None
call: back 2=Ok(()) after 0 asks None
call: back 1=Err(S4) after 0 asks None
call: forward=Ok(()) after 1 asks Some((0, 2))
call: answer 2=Ok(()) after 2 asks None
show=after 2 steps proc 0 pc 10/tray 0 grip A/slots - - - - - - - -/stack 2/A tray 0 at 0 0 0/B tray 0 at 0 0 0/

cup | cup
none
# labels
until 0 2=after 1 steps asks 0 2/
answer 1=after 2 steps/
until 0 2=after 6 steps/
until 0 1=after 8 steps/
back 3=after 5 steps/
until 0 1=after 8 steps/
until 0 0=after 11 steps ended/
forward=refused S1/
over=refused S1/
until 0 0=refused S1/
answer 1=refused S1/
answer 2147483647=refused S1/
back 11=after 0 steps/
back 0=after 0 steps/
back 1=refused S4/
back 4294967295=refused S4/
answer 0=refused S3/
# a line that cannot be put
fronts: forward=after 1 steps asks 0 2/
forward=refused S2/
over=refused S2/
until 0 2=refused S2/
answer 5=refused S3/
answer -2147483648=refused S3/
answer 1=after 2 steps/
fronts: show=after 2 steps proc 0 pc 10/tray 0 grip A/slots - - - - - - - -/stack 1/A tray 0 at 0 0 0/B tray 0 at 0 0 0/
# no commands
=refused command/
 =refused command/
 forward=refused command/
forward =refused command/
Forward=refused command/
forward 1=refused command/
over 1=refused command/
back=refused command/
back =refused command/
back -1=refused command/
back +1=refused command/
back 01=refused command/
back 1 =refused command/
back 4294967296=refused command/
back 18446744073709551616=refused command/
answer=refused command/
answer +1=refused command/
answer -0=refused command/
answer 1 2=refused command/
answer 2147483648=refused command/
answer -2147483649=refused command/
until=refused command/
until 0=refused command/
until 0 3=refused command/
until 1 0=refused command/
until 0 00=refused command/
until 0  0=refused command/
until 0 -1=refused command/
until 256 0=refused command/
until 0 65536=refused command/
until 0 4294967296=refused command/
until 0 0 0=refused command/
show 1=refused command/
quit 1=refused command/
step=refused command/
answer 00000000000000000000000000000000000000000000000000000000=refused command/
answer 000000000000000000000000000000000000000000000000000000000=refused command/
# bytes that are no text, and a line with its end
bytes: ff fe=refused command/
bytes: 00=refused command/
bytes: 66 6f 72 77 61 72 64 0a=refused command/
back 2=after 0 steps/
# no more lines are taken
quit=

cup | result
none
# a procedure that asks, and gives the answer back
forward=after 1 steps/
over=after 2 steps asks 0 2/
over=refused S2/
answer 1=after 3 steps/
over=after 4 steps/
until 1 1=after 6 steps/
until 1 1=after 9 steps/
show=after 9 steps proc 1 pc 11/tray 0 grip A/slots 1 0 - - - - - -/stack -/A tray 0 at 0 0 1/B tray 0 at 0 0 0/
forward=after 10 steps/
over=after 11 steps/
over=after 12 steps/
over=after 13 steps/
back 12=after 1 steps/
over=after 2 steps asks 0 2/
answer 2=after 3 steps/
until 0 0=after 18 steps ended/
back 16=after 2 steps asks 0 2/
answer 0=after 3 steps/
until 0 0=after 12 steps ended/
over=refused S1/
show=after 12 steps proc 0 pc 11 ended/tray 0 grip -/slots - - - - - - - -/stack -/A apart/B apart/
until 0 1=refused command/
until 1 3=refused command/
until 2 0=refused command/
until 255 65535=refused command/

cup | lift
none
# a procedure that is called twice
forward=after 1 steps/
forward=after 2 steps/
over=after 5 steps/
forward=after 6 steps/
forward=after 7 steps/
over=after 8 steps/
over=after 9 steps/
over=after 10 steps/
over=after 11 steps ended/
back 9=after 2 steps/
forward=after 3 steps/
over=after 4 steps/
over=after 5 steps/

ring | ring
0001 0000000b > 0001 00000205, 00 00 00 0000000b > 00 00 00 00000205, \
0000 0002 00 > 0000 00ff 00, 00000002 ffff > 000000ff ffff, 01 0002 03 > 01 00ff 03
# 256 turns of the loop: 517 steps, of which the last 256 have records
until 0 0=after 517 steps ended/
back 256=after 261 steps/
show=after 261 steps proc 0 pc 10/tray 0 grip A/slots 126 - - - - - - -/stack -/A tray 0 at 0 0 129/B tray 0 at 0 0 0/
back 1=after 260 steps/
show=after 260 steps proc 0 pc 12/tray 0 grip A/slots 127 - - - - - - -/stack -/A tray 0 at 0 0 129/B tray 0 at 0 0 0/
back 260=after 0 steps/
until 0 0=after 517 steps ended/
back 257=after 260 steps/
show=after 260 steps proc 0 pc 12/tray 0 grip A/slots 127 - - - - - - -/stack -/A tray 0 at 0 0 129/B tray 0 at 0 0 0/
back 256=after 4 steps/
back 4=after 0 steps/
until 0 1=after 3 steps/
until 0 1=after 5 steps/
back 6=refused S4/";

/// Dialogues with drives, as those above, without edits.
pub const DRIVES: &str = "\
duo | duo
next=move 1 t0 A -x 0 out t1 apart A,B/
next=end 3/
next=end 3/
goto 1=at 1/
goto 2=end 3/
goto 0=refused command/
answer 1 0=refused answer/
quit=

duo | choice
show=after 0 steps proc 0 pc 0/tray 0 grip -/slots - - - - - - - -/stack -/A tray 0 at 0 0 0/B tray 0 at 0 0 0/
goto 0=at 0/
goto 1=ask 1 0 1 proc 0 pc 0/
next=ask 1 0 1 proc 0 pc 0/
answer 1 2=refused answer/
answer 1 -1=refused answer/
answer 0 1=refused answer/
answer 2 1=refused answer/
answer 1 1=taken 1/
answer 1 1=refused answer/
next=move 1 t0 B +x 0 out t1 apart A,B/
next=end 4/
quit=

cup | cup
next=ask 1 0 2 proc 0 pc 5/
next=ask 1 0 2 proc 0 pc 5/
goto 0=at 0/
answer 1 3=refused answer/
answer 1 2=taken 1/
show=after 6 steps proc 0 pc 24/tray 0 grip A/slots 2 1 - - - - - -/stack -/A tray 0 at 0 0 0/B tray 0 at 0 0 0/
next=move 1 t0 A +z 2 out t1 apart A,B/
goto 1=at 1/
next=end 14/
goto 4294967295=end 14/
goto 4294967296=refused command/
=refused command/
 next=refused command/
next =refused command/
NEXT=refused command/
next 1=refused command/
back 1=refused command/
forward=refused command/
answer 1=refused command/
answer 2=refused command/
answer 2 0 0=refused command/
answer 02 0=refused command/
answer -1 0=refused command/
answer 2 2147483648=refused command/
answer 4294967296 0=refused command/
goto=refused command/
goto 01=refused command/
goto -1=refused command/
goto 1 =refused command/
show 1=refused command/
quit 1=refused command/
quit=

cup | lift
goto 1=at 1/
next=end 11/

cup | lift
next=move 1 t0 A +z 2 out t1 apart A,B/
next=end 11/";

/// A dialogue while memory is wanting here and there.
pub const WANTING: &str = "\
duo | duo code
00000013, 0039 22 0000 0000 06 22 0000 0000 06 22 0000 0000 06 22 0000 0000 06 \
22 0000 0000 06 22 0000 0000 06 22 0000 0000 06 22 0000 0000 06 10 00000001 12 01 01 00
# the list of the answers that are kept grows at the first, and later too
wants: answer 0=
answer 0=after 1 steps/
forward=after 2 steps asks 0 0/
answer 0=after 3 steps/
forward=after 4 steps asks 0 0/
answer 0=after 5 steps/
forward=after 6 steps asks 0 0/
answer 0=after 7 steps/
forward=after 8 steps asks 0 0/
wants: answer 0=
answer 0=after 9 steps/
forward=after 10 steps asks 0 0/
answer 0=after 11 steps/
forward=after 12 steps asks 0 0/
answer 0=after 13 steps/
forward=after 14 steps asks 0 0/
answer 0=after 15 steps/
forward=after 16 steps/
# other commands take none, once the stack has grown as far as they need
forward=after 17 steps/
over=after 18 steps/
back 2=after 16 steps/
until 0 0=after 19 steps ended/
forward=refused S1/
back 3=after 16 steps/
show=after 16 steps proc 0 pc 48/tray 0 grip -/slots - - - - - - - -/stack -/A tray 0 at 0 0 0/B tray 0 at 0 0 0/
poorly: forward=after 17 steps/
poorly: over=after 18 steps/
poorly: back 2=after 16 steps/
poorly: until 0 0=after 19 steps ended/
poorly: forward=refused S1/
poorly: back 3=after 16 steps/
poorly: show=after 16 steps proc 0 pc 48/tray 0 grip -/slots - - - - - - - -/stack -/A tray 0 at 0 0 0/B tray 0 at 0 0 0/";
