ghost use Rattle.burr_io.specs.Sink.{Puts};
ghost use Rattle.burr_judge.specs.Refusals.{refusal_line};

use burr_container::ContainerFault;
use burr_io::{Sink, WriteFault, put_all};
use burr_runs::{PlanRefusal, put_clash, put_container_refusal, put_place_line};

/// Why an input is refused. It owns what its line needs, so the input may be gone.
#[derive(Drop)]
pub enum Refused<'x> {
    /// A line of a text: the code of its fault, as `A4` or `P2`, or what the text is, as `answers`; and the
    /// line's number, from 1.
    Line(&'x str, usize),
    /// A line of an assembly's text whose piece overlaps an earlier one: its number, and the pieces' names.
    Overlap {
        line: usize,
        earlier: Vec<u8>,
        piece: Vec<u8>,
    },
    /// A container.
    Container(ContainerFault),
    /// A container's plan, for an assembly.
    Plan(PlanRefusal),
    /// A run that does not reach its end: what it printed.
    Run(Vec<u8>),
}

impl<'x> Refused<'x> {
    /// Writes the line of the refusal, as `refused P2 line 9`; docs/FORMATS.md has all of them.
    pub fn put<W: Sink>(&self, sink: &mut W) -> Result<(), WriteFault>
        ensures { Puts W.Sink sink.old sink.new (refusal_line self.now) result }
    {
        match self {
            Refused::Line(subject, line) => {
                put_place_line(subject.as_bytes(), b"line", *line, sink)
            }
            Refused::Overlap {
                line,
                earlier,
                piece,
            } => put_clash(*line, earlier, piece, sink),
            Refused::Container(fault) => put_container_refusal(*fault, sink),
            Refused::Plan(refusal) => refusal.put(sink),
            Refused::Run(sheet) => put_all(sheet, sink),
        }
    }
}
