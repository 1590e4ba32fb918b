//! What each export gives, where that is long.

use crate::drive::{
    ToldHalt, ToldMove, burr_drive_answer, burr_drive_close, burr_drive_goto, burr_drive_next,
    burr_drive_open,
};
use crate::handle::Handle;
use crate::stepper::{burr_step_command, burr_step_open};
use crate::{burr_assemble, burr_check, burr_run, burr_step_through, burr_try};
use std::alloc::{AllocError, Global};
use std::process::Abort;

/// Two cubes side by side along x.
const DUO: &[u8] = b"\
assembly duo
shape cube
layer
#
end
piece A cube +x+y+z 0 0 0
piece B cube +x+y+z 1 0 0
";

/// The left cube goes out and back 3,000 times before it is taken aside.
const TURNS: &[u8] = b"\
plan duo 2 9005
proc main 0
label start
frame 0 -
cost 9005
at 0 0 0 0 0
at 1 0 0 0 0
grip 0
push 2999
store 0
label turn
frame 0 0
slot 0 0 2999
cost 5+3v0
at 0 0 0 0 0
at 1 0 0 0 0
step -x
step +x
down 0 turn
aside -x 1
halt
";

/// What a check of it prints: it looks at 3,000 points of each move of the turn, and once at the way
/// out.
const CHECKED: &[u8] = b"accepted cost 9005 budget 9005 looks 6001\n";

/// The sheet of its run.
fn sheet(alloc: Global) -> Result<String, AllocError> {
    let mut text = String::new(alloc);
    for turn in 0..3000u32 {
        let number = 2 * turn + 1;
        write!(text, "{number} t0 A -x 1\n{} t0 A +x 1\n", number + 1)?;
    }
    text.push_str("6001 t0 A -x 0 out\nlevels 6001\napart in 9005 steps\n")?;
    Ok(text)
}

/// What `show` prints before its first step.
const SHOWN: &str = "\
after 0 steps proc 0 pc 0
tray 0 grip -
slots - - - - - - - -
stack -
A tray 0 at 0 0 0
B tray 0 at 0 0 0
";

/// How many procedures follow main in a plan of 65,536 bytes of code.
const OTHERS: usize = 15;

/// Of the text of that plan, main up to its code.
const MAIN_TEXT: &str = "\
plan duo 2 3
proc main 0
label start
frame 0 -
cost 1
at 0 apart
at 1 apart
";

/// The same of each other procedure, after its name.
const OTHER_TEXT: &str = "\
exit 0 -
at 0 apart
at 1 apart
label start
frame 0 -
cost 1
at 0 apart
at 1 apart
";

/// The text of that plan.
fn long_text(alloc: Global) -> Result<String, AllocError> {
    let code = "add\n".repeat(alloc, 4096)?;
    let mut text = format!(in alloc; "{MAIN_TEXT}{code}")?;
    for number in 0..OTHERS {
        write!(text, "proc q{number} 0\n{OTHER_TEXT}{code}")?;
    }
    Ok(text)
}

/// Of its container, main up to its code.
const MAIN_BYTES: &[u8] = b"BPLN\x00\x01\x00\x00\x00\x03\x02\x03duo\x10\x00\x00\x01\
    \x00\x00\x00\x00\x00\x00\x00\x00\x00\x00\x00\x00\x00\x01\xff\xff\x10\x00";

/// The same of each other procedure.
const OTHER_BYTES: &[u8] = b"\x00\x00\x00\x00\x00\x00\xff\xff\x00\x01\
    \x00\x00\x00\x00\x00\x00\x00\x00\x00\x00\x00\x00\x00\x01\xff\xff\x10\x00";

/// Its container.
fn long_container(alloc: Global) -> Result<Vec<u8>, AllocError> {
    let mut bytes = Vec::new(alloc);
    bytes.extend_from_slice(MAIN_BYTES)?;
    bytes.extend_from_slice(&[4; 4096])?;
    for _ in 0..OTHERS {
        bytes.extend_from_slice(OTHER_BYTES)?;
        bytes.extend_from_slice(&[4; 4096])?;
    }
    Ok(bytes)
}

/// Asserts that a call gave the status 0 and these bytes, and no more.
fn assert_given(rt: &impl Abort, name: &str, status: u8, bytes: Option<&[u8]>, wanted: &[u8]) {
    assert!(rt; status == 0 && bytes == Some(wanted), "{name}");
}

/// Each one that can: a check prints one line.
#[test]
fn each_export_gives_more_than_64_kib(rt: HostRuntime) {
    let alloc = rt.alloc();
    let mut buffer = vec![in alloc; 0u8; 200_000].expect(&rt, "memory");
    let buffer = buffer.as_mut_slice();
    let mut size = 0;
    let text = long_text(alloc).expect(&rt, "memory");
    let long = long_container(alloc).expect(&rt, "memory");
    let status = burr_assemble(alloc, text.as_bytes(), buffer, &mut size);
    assert_given(&rt, "assemble", status, buffer.get(..size), &long);
    let status = burr_assemble(alloc, TURNS, buffer, &mut size);
    assert!(rt; status == 0 && size <= buffer.len());
    let plan = Vec::from_slice(alloc, &buffer[..size]).expect(&rt, "memory");
    let status = burr_check(alloc, DUO, &plan, buffer, &mut size);
    assert_given(&rt, "check", status, buffer.get(..size), CHECKED);
    let sheet = sheet(alloc).expect(&rt, "memory");
    let status = burr_run(alloc, DUO, &plan, b"", buffer, &mut size);
    assert_given(&rt, "run", status, buffer.get(..size), sheet.as_bytes());
    let status = burr_try(alloc, DUO, &plan, b"", buffer, &mut size);
    assert_given(&rt, "try", status, buffer.get(..size), sheet.as_bytes());
    let commands = "show\n".repeat(alloc, 1000).expect(&rt, "memory");
    let shown = SHOWN.repeat(alloc, 1000).expect(&rt, "memory");
    let status = burr_step_through(alloc, DUO, &plan, commands.as_bytes(), buffer, &mut size);
    assert_given(&rt, "step", status, buffer.get(..size), shown.as_bytes());
    assert!(rt; long.len() > 65_536 && sheet.len() > 65_536 && shown.len() > 65_536);
}

/// What stands there before a call.
const NO_MOVE: ToldMove = ToldMove {
    number: 0,
    group: 0,
    units: 0,
    apart: 0,
    out: 0,
    tray: 0,
    direction: 0,
};

const NO_HALT: ToldHalt = ToldHalt {
    steps: 0,
    question: 0,
    low: 0,
    high: 0,
    pc: 0,
    procedure: 0,
};

/// Asserts that no drive is open: each call says so and gives nothing.
fn assert_closed(rt: &impl Abort, alloc: Global, drive: &mut Handle) {
    let mut step = NO_MOVE;
    let mut halt = NO_HALT;
    assert!(rt; burr_drive_next(alloc, drive, &mut step, &mut halt) == 7);
    assert!(rt; burr_drive_goto(alloc, drive, 1, &mut halt) == 7);
    assert!(rt; burr_drive_answer(alloc, drive, 1, 0) == 7);
    assert!(rt; step == NO_MOVE && halt == NO_HALT);
}

/// Each move out and back is a move of its own, 6,001 in all, and the last goes aside. Then the same
/// handle keeps a stepper.
#[test]
fn a_run_goes_on_from_call_to_call(rt: HostRuntime) {
    let alloc = rt.alloc();
    let mut drive = Handle::none();
    assert_closed(&rt, alloc, &mut drive);
    let mut buffer = [0u8; 512];
    let mut size = 0;
    let status = burr_assemble(alloc, TURNS, &mut buffer, &mut size);
    assert!(rt; status == 0 && size <= buffer.len());
    let plan = Vec::from_slice(alloc, &buffer[..size]).expect(&rt, "memory");
    assert!(rt; burr_drive_open(alloc, TURNS, &plan, &mut buffer, &mut size, &mut drive) == 1);
    assert_closed(&rt, alloc, &mut drive);
    assert!(rt; burr_drive_open(alloc, DUO, &plan, &mut buffer, &mut size, &mut drive) == 0);
    assert!(rt; size == 71 && buffer.starts_with(b"ready "));
    let mut step = NO_MOVE;
    let mut halt = NO_HALT;
    assert!(rt; burr_drive_next(alloc, &mut drive, &mut step, &mut halt) == 0);
    assert!(rt; (step.number, step.group, step.units) == (1, 1, 1));
    assert!(rt; (step.tray, step.direction, step.out, step.apart) == (0, 1, -1, 0));
    assert!(rt; burr_drive_answer(alloc, &mut drive, 1, 0) == 1);
    assert!(rt; burr_drive_goto(alloc, &mut drive, 0, &mut halt) == 1);
    assert!(rt; burr_drive_goto(alloc, &mut drive, 6000, &mut halt) == 0);
    assert!(rt; burr_drive_next(alloc, &mut drive, &mut step, &mut halt) == 0);
    assert!(rt; (step.number, step.group, step.units) == (6001, 1, 0));
    assert!(rt; (step.out, step.apart) == (1, 3) && halt == NO_HALT);
    assert!(rt; burr_drive_next(alloc, &mut drive, &mut step, &mut halt) == 6);
    assert!(rt; burr_drive_goto(alloc, &mut drive, 7000, &mut halt) == 6);
    assert!(rt; (halt.steps, halt.question) == (9005, 0) && step.number == 6001);
    assert!(rt; burr_step_command(alloc, &mut drive, b"forward", &mut buffer, &mut size) == 7);
    burr_drive_close(alloc, &mut drive);
    burr_drive_close(alloc, &mut drive);
    assert_closed(&rt, alloc, &mut drive);
    assert!(rt; burr_step_open(alloc, DUO, &plan, &mut buffer, &mut size, &mut drive) == 0);
    assert!(rt; size == 0);
    assert!(rt; burr_step_command(alloc, &mut drive, b"forward", &mut buffer, &mut size) == 0);
    assert!(rt; size == 14 && buffer.starts_with(b"after 1 steps\n"));
    assert!(rt; burr_step_command(alloc, &mut drive, b"back 2", &mut buffer, &mut size) == 0);
    assert!(rt; size == 11 && buffer.starts_with(b"refused S4\n"));
    assert!(rt; burr_step_command(alloc, &mut drive, b"quit", &mut buffer, &mut size) == 0);
    assert!(rt; size == 0);
    assert_closed(&rt, alloc, &mut drive);
    assert!(rt; burr_step_command(alloc, &mut drive, b"back 1", &mut buffer, &mut size) == 0);
    assert!(rt; size == 14 && buffer.starts_with(b"after 0 steps\n"));
    burr_drive_close(alloc, &mut drive);
    assert!(rt; burr_step_command(alloc, &mut drive, b"show", &mut buffer, &mut size) == 7);
    let _none = drive.into_box(alloc);
}
