//! A refused plan, kept without the plan and the assembly.

ghost use Rattle.burr_io.specs.Sink.{Puts};
ghost use Rattle.burr_runs.specs.Rules.Verdicts.{name_or_none, numbers_part, place_part, plan_refusal, point_part};
ghost use Rattle.burr_runs.specs.Views.NamedRefusals.{named_refusal, names_part};
ghost use Rattle.std.specs.Prelude.{◌≡◌, ◌++◌, codes};

use arrayvec::ArrayVec;
use burr_assembly::Assembly;
use burr_forms::Point;
use burr_io::{Sink, WriteFault, put_all, put_number};
use burr_text::LONGEST_NAME;
use burr_verify::Refusal;

/// The bytes of a piece's name.
type PieceName = ArrayVec<u8, LONGEST_NAME>;

/// Why a plan is refused, with the names of the two pieces that the refusal is about.
#[derive(Drop)]
pub struct PlanRefusal {
    pub refusal: Refusal,
    names: Option<(PieceName, PieceName)>,
}

impl PlanRefusal {
    /// Adds the names of an assembly's pieces to the refusal of a plan for it.
    pub fn new(refusal: Refusal, assembly: &Assembly) -> PlanRefusal
        ensures line { named_refusal result ≡ plan_refusal assembly.now refusal }
        ensures refusal { result.refusal ≡ refusal }
    {
        let names = match refusal.pieces {
            Some((piece, other)) => Some((name_of(assembly, piece), name_of(assembly, other))),
            None => None,
        };
        PlanRefusal { refusal, names }
    }

    /// Writes the line of a refused plan, as `refused V15 proc 0 pc 24 pieces A B point 0 1`. Pieces that
    /// are not named, and a point that is absent or empty, are left out with their word.
    pub fn put<W: Sink>(&self, sink: &mut W) -> Result<(), WriteFault>
        ensures { Puts W.Sink sink.old sink.new (named_refusal self.now) result }
    {
        put_place(&self.refusal, sink)?;
        put_names(&self.names, sink)?;
        put_point(&self.refusal.point, sink)?;
        put_all(b"\n", sink)
    }
}

/// Returns the name of a piece; it is empty if there is no such piece.
fn name_of(assembly: &Assembly, piece: u8) -> PieceName
    ensures { result.items ≡ name_or_none assembly.now piece }
{
    let mut name = PieceName::new();
    if piece < assembly.piece_count() {
        let _fits = name.try_extend_from_slice(assembly.piece_name(piece).as_bytes());
    }
    name
}

/// Writes the rule and the place, as `refused V15 proc 0 pc 24`.
fn put_place<W: Sink>(refusal: &Refusal, sink: &mut W) -> Result<(), WriteFault>
    ensures { Puts W.Sink sink.old sink.new (place_part refusal.now) result }
{
    put_all(b"refused V", sink)?;
    put_number(refusal.rule.number(), sink)?;
    put_all(b" proc ", sink)?;
    put_number(refusal.proc, sink)?;
    put_all(b" pc ", sink)?;
    put_number(refusal.pc, sink)
}

/// Writes the names of two pieces, as ` pieces A B`, or nothing.
fn put_names<W: Sink>(
    names: &Option<(PieceName, PieceName)>,
    sink: &mut W,
) -> Result<(), WriteFault>
    ensures { Puts W.Sink sink.old sink.new (names_part names.now) result }
{
    match names {
        Some((name, other)) => put_pair(name.as_slice(), other.as_slice(), sink),
        None => Ok(()),
    }
}

/// Writes two names, as ` pieces A B`.
fn put_pair<W: Sink>(name: &[u8], other: &[u8], sink: &mut W) -> Result<(), WriteFault>
    ensures { Puts W.Sink sink.old sink.new
        (codes " pieces " ++ (name.now ++ (codes " " ++ other.now))) result }
{
    put_all(b" pieces ", sink)?;
    put_all(name, sink)?;
    put_all(b" ", sink)?;
    put_all(other, sink)
}

/// Writes a point, as ` point 0 1`; nothing if it is absent or empty.
fn put_point<W: Sink>(point: &Option<Point>, sink: &mut W) -> Result<(), WriteFault>
    ensures { Puts W.Sink sink.old sink.new (point_part point.now) result }
{
    let Some(point) = point else {
        return Ok(());
    };
    if point.is_empty() {
        return Ok(());
    }
    put_all(b" point", sink)?;
    put_numbers(point.as_slice(), sink)
}

/// Writes numbers, a space before each.
fn put_numbers<W: Sink>(numbers: &[i32], sink: &mut W) -> Result<(), WriteFault>
    ensures { Puts W.Sink sink.old sink.new (numbers_part numbers.now) result }
{
    for number in numbers {
        put_all(b" ", sink)?;
        put_number(*number, sink)?;
    }
    Ok(())
}
