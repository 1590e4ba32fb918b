//! The lines that say a refusal or a verdict.

ghost use Rattle.burr_io.specs.Sink.{Puts};
ghost use Rattle.burr_runs.specs.Rules.Refusals.{place_line, assembly_refusal, clash_line, container_refusal};
ghost use Rattle.burr_runs.specs.Rules.Verdicts.{accepted_line};

use burr_assembly::{AssemblyFault, piece_name};
use burr_container::ContainerFault;
use burr_io::{Sink, WriteFault, put_all, put_number, put_words};
use itoa::Buffer;

/// Puts the line of what is refused at a place, on a `line` or `at` a position, as `refused C1 at 12`.
pub fn put_place_line<W: Sink>(
    subject: &[u8],
    unit: &[u8],
    place: usize,
    sink: &mut W,
) -> Result<(), WriteFault>
    ensures { Puts W.Sink sink.old sink.new (place_line subject.now unit.now place) result }
{
    let mut buffer = Buffer::new();
    let place = buffer.format(place).as_bytes();
    put_words(&[b"refused", subject, unit, place], sink)
}

/// Puts the line of the fault of an assembly's text, as `refused A4 line 7`, or `refused A8 line 7 A B`
/// with the names of the pieces, which are found in the text. Want of memory is no fault of a text: of
/// it nothing is put.
pub fn put_assembly_refusal<W: Sink>(
    text: &[u8],
    fault: AssemblyFault,
    sink: &mut W,
) -> Result<(), WriteFault>
    ensures { Puts W.Sink sink.old sink.new (assembly_refusal text.now fault) result }
{
    match fault {
        AssemblyFault::A8 {
            line,
            earlier,
            piece,
        } => put_clash(
            line,
            piece_name(text, earlier),
            piece_name(text, piece),
            sink,
        ),
        _ => match fault.code_and_line() {
            Some((code, line)) => put_place_line(code.as_bytes(), b"line", line, sink),
            None => Ok(()),
        },
    }
}

/// Writes `refused A8 line 7 A B`, with the names of two pieces; the second shares a cell with the first.
pub fn put_clash<W: Sink>(
    line: usize,
    first: &[u8],
    second: &[u8],
    sink: &mut W,
) -> Result<(), WriteFault>
    ensures { Puts W.Sink sink.old sink.new (clash_line line first.now second.now) result }
{
    let mut buffer = Buffer::new();
    let line = buffer.format(line).as_bytes();
    put_words(&[b"refused", b"A8", b"line", line, first, second], sink)
}

/// Puts the line of a container's fault, as `refused C1 at 12`.
pub fn put_container_refusal<W: Sink>(fault: ContainerFault, sink: &mut W) -> Result<(), WriteFault>
    ensures { Puts W.Sink sink.old sink.new (container_refusal fault) result }
{
    let (code, position) = fault.code_and_position();
    put_place_line(code.as_bytes(), b"at", position, sink)
}

/// Puts the line of an accepted plan, as `accepted cost 4 budget 4 looks 2`.
pub fn put_accepted<W: Sink>(
    cost: u32,
    budget: u32,
    looks: u64,
    sink: &mut W,
) -> Result<(), WriteFault>
    ensures { Puts W.Sink sink.old sink.new (accepted_line cost budget looks) result }
{
    put_all(b"accepted cost ", sink)?;
    put_number(cost, sink)?;
    put_all(b" budget ", sink)?;
    put_number(budget, sink)?;
    put_all(b" looks ", sink)?;
    put_number(looks, sink)?;
    put_all(b"\n", sink)
}
