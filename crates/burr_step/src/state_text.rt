//! The state of a run, in words.

ghost use Rattle.std.specs.Prelude.{◌≡◌, length, map};
ghost use Rattle.std.specs.Fmt.{signed_decimal};
ghost use Rattle.burr_assembly.specs.Rules.Homes.{names_of};
ghost use Rattle.burr_io.specs.Sink.{Puts};
ghost use Rattle.burr_code.specs.declared.limits.TheConstants.{SLOTS};
ghost use Rattle.burr_code.specs.declared.placement.Placement.TheVariants.{On};
ghost use Rattle.burr_step.specs.Rules.StepTexts.{grip_word, piece_line, piece_lines, show_text, slot_word};
ghost use Rattle.burr_step.specs.Views.ShownParts.{after_line, slots_line, spaced_words, stack_line, tray_line};

use burr_bench::Machine;
use burr_code::Placement;
use burr_code::limits::SLOTS;
use burr_io::{Sink, WriteFault, put_all, put_number, put_words};
use burr_sheet::put_names;
use burr_voxels::Cell;
use itoa::Buffer;

/// Puts where a run stands: its steps, procedure and position; the tray and the names of the gripped
/// pieces; the eight slots and the operands of the running activation, the bottom operand first;
/// and where each piece is, by how far from home it lies.
pub fn put_state<W: Sink>(machine: &Machine, sink: &mut W) -> Result<(), WriteFault>
    requires { length machine.now.state.running.slots ≡ SLOTS }
    ensures { Puts W.Sink sink.old sink.new
        (show_text (names_of machine.now.assembly) machine.now.state) result }
{
    put_after(machine, sink)?;
    put_tray(machine, sink)?;
    put_slots(machine, sink)?;
    put_stack(machine, sink)?;
    put_pieces(machine, sink)
}

/// Puts how far the run is, as `after 3 steps proc 0 pc 5`, or with `ended` at the end.
fn put_after<W: Sink>(machine: &Machine, sink: &mut W) -> Result<(), WriteFault>
    ensures { Puts W.Sink sink.old sink.new (after_line machine.now.state) result }
{
    let mut steps = Buffer::new();
    let mut proc = Buffer::new();
    let mut pc = Buffer::new();
    let steps = steps.format(machine.steps()).as_bytes();
    let proc = proc.format(machine.proc()).as_bytes();
    let pc = pc.format(machine.pc()).as_bytes();
    if machine.ended() {
        put_words(
            &[
                b"after", steps, b"steps", b"proc", proc, b"pc", pc, b"ended",
            ],
            sink,
        )
    } else {
        put_words(&[b"after", steps, b"steps", b"proc", proc, b"pc", pc], sink)
    }
}

/// Puts the current tray and the names of the gripped pieces, as `tray 0 grip A,B`.
fn put_tray<W: Sink>(machine: &Machine, sink: &mut W) -> Result<(), WriteFault>
    ensures { Puts W.Sink sink.old sink.new
        (tray_line (names_of machine.now.assembly) machine.now.state) result }
{
    put_all(b"tray ", sink)?;
    put_number(machine.tray(), sink)?;
    put_all(b" grip ", sink)?;
    put_grip(machine, sink)?;
    put_all(b"\n", sink)
}

/// Puts the names of the gripped pieces, as `A,B`; `-` where nothing is gripped.
fn put_grip<W: Sink>(machine: &Machine, sink: &mut W) -> Result<(), WriteFault>
    ensures { Puts W.Sink sink.old sink.new
        (grip_word (names_of machine.now.assembly) machine.now.state.grip) result }
{
    if machine.grip() == 0 {
        return put_all(b"-", sink);
    }
    put_names(machine.assembly(), machine.grip(), sink)
}

/// Puts the eight slots, as `slots 3 - - - - - - -`.
fn put_slots<W: Sink>(machine: &Machine, sink: &mut W) -> Result<(), WriteFault>
    requires { length machine.now.state.running.slots ≡ SLOTS }
    ensures { Puts W.Sink sink.old sink.new (slots_line machine.now.state) result }
{
    put_all(b"slots", sink)?;
    put_slot_words(machine, sink)?;
    put_all(b"\n", sink)
}

/// Puts the words of the eight slots, a space before each.
fn put_slot_words<W: Sink>(machine: &Machine, sink: &mut W) -> Result<(), WriteFault>
    requires { length machine.now.state.running.slots ≡ SLOTS }
    ensures { Puts W.Sink sink.old sink.new
        (spaced_words (map slot_word machine.now.state.running.slots)) result }
{
    for slot in 0..SLOTS as u8 {
        put_all(b" ", sink)?;
        put_slot(machine.slot(slot), sink)?;
    }
    Ok(())
}

/// Puts the number that a slot holds; `-` for an empty one.
fn put_slot<W: Sink>(slot: Option<i32>, sink: &mut W) -> Result<(), WriteFault>
    ensures { Puts W.Sink sink.old sink.new (slot_word slot) result }
{
    match slot {
        Some(number) => put_number(number, sink),
        None => put_all(b"-", sink),
    }
}

/// Puts the operands, the bottom first, as `stack 1 2`; `stack -` where there are none.
fn put_stack<W: Sink>(machine: &Machine, sink: &mut W) -> Result<(), WriteFault>
    ensures { Puts W.Sink sink.old sink.new (stack_line machine.now.state) result }
{
    let operands = machine.operands();
    if operands.is_empty() {
        return put_words(&[b"stack", b"-"], sink);
    }
    put_all(b"stack", sink)?;
    put_numbers(operands, sink)?;
    put_all(b"\n", sink)
}

/// Puts numbers, a space before each.
fn put_numbers<W: Sink>(numbers: &[i32], sink: &mut W) -> Result<(), WriteFault>
    ensures { Puts W.Sink sink.old sink.new
        (spaced_words (map signed_decimal numbers.now)) result }
{
    for number in numbers {
        put_all(b" ", sink)?;
        put_number(*number, sink)?;
    }
    Ok(())
}

/// Puts where each piece is, a line for each.
fn put_pieces<W: Sink>(machine: &Machine, sink: &mut W) -> Result<(), WriteFault>
    ensures { Puts W.Sink sink.old sink.new
        (piece_lines (names_of machine.now.assembly) machine.now.state.places) result }
{
    let assembly = machine.assembly();
    for piece in 0..assembly.piece_count() {
        put_piece(
            assembly.piece_name(piece).as_bytes(),
            machine.place(piece),
            sink,
        )?;
    }
    Ok(())
}

/// Puts where a piece of this name is, as `A apart` or `A tray 0 at 0 0 3`.
fn put_piece<W: Sink>(name: &[u8], place: Placement<Cell>, sink: &mut W) -> Result<(), WriteFault>
    ensures { Puts W.Sink sink.old sink.new (piece_line name.now place) result }
{
    match place {
        Placement::Apart => put_words(&[name, b"apart"], sink),
        Placement::On { tray, position } => put_position(name, tray, position, sink),
    }
}

/// Puts where in a tray a piece of this name is, as `A tray 0 at 0 0 3`.
fn put_position<W: Sink>(name: &[u8], tray: u8, at: Cell, sink: &mut W) -> Result<(), WriteFault>
    ensures { Puts W.Sink sink.old sink.new (piece_line name.now (On tray at)) result }
{
    let mut in_tray = Buffer::new();
    let mut x = Buffer::new();
    let mut y = Buffer::new();
    let mut z = Buffer::new();
    let in_tray = in_tray.format(tray).as_bytes();
    let x = x.format(at.x).as_bytes();
    let y = y.format(at.y).as_bytes();
    let z = z.format(at.z).as_bytes();
    put_words(&[name, b"tray", in_tray, b"at", x, y, z], sink)
}
