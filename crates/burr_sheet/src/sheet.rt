ghost use Rattle.std.specs.Prelude.{◌≡◌, ◌+◌, ◌<◌, ◌≤◌, [], true, false, Some, length, IfOk, OnOk, OnErr, ◌==◌, ◌∷◌, decimal, ◌++◌};
ghost use Rattle.arrayvec.specs.ArrayVec.{array_vec_len};
ghost use Rattle.burr_io.specs.Sink.{Puts};
ghost use Rattle.burr_code.specs.declared.limits.TheConstants.{MOST_BUDGET};
ghost use Rattle.burr_assembly.specs.Rules.Homes.{names_of};
ghost use Rattle.burr_sheet.specs.Rules.SheetText.{alone, move_line, names_from, out_word, closing_line, levels_line, is_one};
ghost use Rattle.burr_sheet.specs.Views.SheetUnderWay.{blank, spaced_names, still, outs_of, growing_text, move_line_of, KeepsCounts, OnUnfailed, PutsBefore, PutsMotion, FailsInMotion, StaysUnfailed};
ghost use Rattle.std.specs.List.{join_with_byte};
ghost use Rattle.burr_voxels.specs.Grid.{name_of};
ghost use Rattle.burr_text.specs.Words.{text_line};
ghost use Rattle.burr_state.specs.declared.effect.Closing.TheVariants as closings;

use arrayvec::ArrayVec;
use burr_assembly::Assembly;
use burr_code::is_in_set;
use burr_code::limits::MOST_PIECES;
use burr_io::{Sink, WriteFault, put_all, put_number, put_words};
use burr_state::{Closing, Motion, Trap};
use burr_text::LONGEST_NAME;
use burr_voxels::Direction;
use itoa::Buffer;
use std::marker::Model;

/// The most outs of a run: each makes one group of pieces two.
const MOST_OUTS: usize = MOST_PIECES - 1;

/// The most bytes of a group's names, a comma after each, and of a blank at either end.
const MOST_NAME_BYTES: usize = MOST_PIECES * (LONGEST_NAME + 1) + 2;

/// The sheet of a run, written as its motions come. It keeps nothing but the growing line, counts,
/// and the names of the last line's group.
#[derive(Debug, Drop)]
pub struct Sheet<'a> {
    names: KeptNames<'a>,
    /// The line that the next motion may go on.
    growing: Option<GrowingLine>,
    /// How many lines are closed.
    lines: u32,
    /// How many of them after the last out.
    level: u32,
    /// For each out, how many lines there were since the out before it, its own line included.
    levels: ArrayVec<u32, MOST_OUTS>,
    /// How many motions have come.
    motions: u32,
    /// Whether a sink has failed.
    failed: bool,
}

impl<'a> Model for Sheet<'a> {
    ghost use Rattle.burr_sheet.specs.Views.SheetUnderWay.{UnderWay, IsCounted};

    ghost Value = { UnderWay };

    ghost use Rattle.burr_sheet.specs.Views.SheetView.{under_way};

    ghost view = { under_way };

    ghost invariant = { λ s. IsCounted (under_way s) };
}

impl<'a> Sheet<'a> {
    /// The sheet of a run that has made no motion.
    pub fn new(assembly: &'a Assembly) -> Sheet<'a>
        ensures { result ≡ blank (names_of assembly.now) }
    {
        Sheet {
            names: KeptNames::new(assembly),
            growing: None,
            lines: 0,
            level: 0,
            levels: ArrayVec::new(),
            motions: 0,
            failed: false,
        }
    }

    /// Takes the next motion, and puts the lines that it closes. After a fault each later call
    /// answers `WriteFault`, whatever the sink, and puts nothing.
    pub fn motion<W: Sink>(&mut self, motion: Motion, sink: &mut W) -> Result<(), WriteFault>
        requires few { self.old.motions < MOST_BUDGET }
        requires outs { length self.old.levels + outs_of motion ≤ 31 }
        ensures unfailed { OnOk result (StaysUnfailed self.old self.new) }
        ensures ok { OnOk result (PutsMotion W.Sink sink.old sink.new self.old motion self.new) }
        ensures motions { OnOk result (self.new.motions ≡ self.old.motions + 1) }
        ensures levels { OnOk result
            (length self.new.levels ≡ length self.old.levels + outs_of motion) }
        ensures failed { OnErr result (self.new.failed ≡ true) }
        ensures kept { OnErr result (KeepsCounts self.old self.new) }
        ensures err { OnErr result (OnUnfailed self.old sink.old sink.new
            (FailsInMotion W.Sink sink.old sink.new self.old motion)) }
    {
        if self.failed {
            return Err(WriteFault);
        }
        let put = self.put_motion(motion, sink);
        self.failed = put.is_err();
        put
    }

    /// Takes the next motion of a sheet that has not failed.
    fn put_motion<W: Sink>(&mut self, motion: Motion, sink: &mut W) -> Result<(), WriteFault>
        requires few { self.old.motions < MOST_BUDGET }
        requires outs { length self.old.levels + outs_of motion ≤ 31 }
        ensures ok { OnOk result (PutsMotion W.Sink sink.old sink.new self.old motion self.new) }
        ensures motions { OnOk result (self.new.motions ≡ self.old.motions + 1) }
        ensures levels { OnOk result
            (length self.new.levels ≡ length self.old.levels + outs_of motion) }
        ensures kept { OnErr result (KeepsCounts self.old self.new) }
        ensures err { OnErr result (FailsInMotion W.Sink sink.old sink.new self.old motion) }
    {
        let line = self.line_for(motion, sink)?;
        if motion.out {
            put_line(&mut self.names, self.lines + 1, line, true, sink)?;
            self.levels.push(self.level + 1);
            self.growing = None;
            self.lines += 1;
            self.level = 0;
        } else {
            self.growing = Some(line.with_step());
        }
        self.motions += 1;
        Ok(())
    }

    /// The line that a motion goes on: the growing one, where group, tray and direction are equal;
    /// else a new one, and the growing one is put.
    fn line_for<W: Sink>(&mut self, motion: Motion, sink: &mut W) -> Result<GrowingLine, WriteFault>
        ensures one { IfOk result (λ line. is_one (move_line_of line false) (alone motion) ≡ true) }
        ensures ok { IfOk result (λ line. PutsBefore W.Sink sink.old sink.new self.old motion
            (record self.new { growing = Some (move_line_of line false) })) }
        ensures units { IfOk result (λ line. line.units ≤ self.old.motions) }
        ensures kept { KeepsCounts self.old self.new }
        ensures err { OnErr result (FailsInMotion W.Sink sink.old sink.new self.old motion) }
    {
        let Some(line) = self.growing else {
            return Ok(GrowingLine::before(motion));
        };
        if line.is_of(motion) {
            return Ok(line);
        }
        put_line(&mut self.names, self.lines + 1, line, false, sink)?;
        self.growing = None;
        self.lines += 1;
        self.level += 1;
        Ok(GrowingLine::before(motion))
    }

    /// Closes the sheet: puts the growing line, the levels and how the run closed; nothing, and
    /// `WriteFault`, where it has failed.
    pub fn close<W: Sink>(
        mut self,
        closing: Closing,
        steps: u64,
        sink: &mut W,
    ) -> Result<(), WriteFault>
        ensures unfailed { OnOk result (self.entry.failed ≡ false) }
        ensures end { OnUnfailed self.entry sink.old sink.new
            (Puts W.Sink sink.old sink.new (still self.entry [] steps closing) result) }
    {
        if self.failed {
            return Err(WriteFault);
        }
        self.put_growing(sink)?;
        put_levels(self.levels.as_slice(), sink)?;
        put_closing(closing, steps, sink)
    }

    /// Puts the growing line, if there is one.
    fn put_growing<W: Sink>(&mut self, sink: &mut W) -> Result<(), WriteFault>
        ensures levels { self.new.levels ≡ self.old.levels }
        ensures puts { Puts W.Sink sink.old sink.new (growing_text self.old) result }
    {
        match self.growing {
            Some(line) => put_line(&mut self.names, self.lines + 1, line, false, sink),
            None => Ok(()),
        }
    }
}

/// The line that may still grow: unit steps of one group in one tray along one direction.
#[derive(Clone, Copy, Debug)]
pub struct GrowingLine {
    /// The pieces that move: bit p is piece p.
    pub group: u32,
    pub tray: u8,
    pub direction: Direction,
    pub units: u32,
}

impl GrowingLine {
    /// The line that a motion begins, before the motion goes on it.
    pub fn before(motion: Motion) -> GrowingLine
        ensures { result ≡ record {
          group = motion.group;
          tray = motion.tray;
          direction = motion.dir;
          units = 0;
        } }
    {
        GrowingLine {
            group: motion.group,
            tray: motion.tray,
            direction: motion.dir,
            units: 0,
        }
    }

    /// Whether a motion goes on the line: of the same group in the same tray along the same
    /// direction.
    pub fn is_of(self, motion: Motion) -> bool
        ensures { result ≡ is_one (move_line_of self false) (alone motion) }
    {
        self.group == motion.group
            && self.tray == motion.tray
            && self.direction.number() == motion.dir.number()
    }

    /// The line with one step more.
    pub fn with_step(self) -> GrowingLine
        requires { self.units ≤ MOST_BUDGET }
        ensures { result ≡ record self { units = self.units + 1 } }
    {
        GrowingLine {
            units: self.units + 1,
            ..self
        }
    }
}

/// The names of a group's pieces between two blanks, kept as a text: a run goes to and fro with one
/// group over many lines.
#[derive(Debug, Drop)]
pub struct KeptNames<'a> {
    assembly: &'a Assembly,
    /// The group whose names the text has.
    group: u32,
    text: ArrayVec<u8, MOST_NAME_BYTES>,
}

impl<'a> Model for KeptNames<'a> {
    ghost use Rattle.std.specs.Prelude.{◌≡◌, List, ℕ};
    ghost use Rattle.burr_assembly.specs.Rules.Homes.{names_of};
    ghost use Rattle.burr_sheet.specs.Views.SheetUnderWay.{spaced_names};

    ghost Value = { List (List ℕ) };

    ghost view = { λ n. names_of n.assembly.now };

    ghost invariant = { λ n. n.text.items ≡ spaced_names (names_of n.assembly.now) n.group };
}

impl<'a> KeptNames<'a> {
    /// The names of no pieces.
    pub fn new(assembly: &'a Assembly) -> KeptNames<'a>
        ensures { result ≡ names_of assembly.now }
    {
        let mut text = ArrayVec::new();
        write_names(assembly, 0, &mut text);
        KeptNames {
            assembly,
            group: 0,
            text,
        }
    }

    /// Puts the names of a group, as ` A,B `.
    pub fn put<W: Sink>(&mut self, group: u32, sink: &mut W) -> Result<(), WriteFault>
        ensures names { self.new ≡ self.old }
        ensures puts { Puts W.Sink sink.old sink.new (spaced_names self.old group) result }
    {
        if self.group != group {
            write_names(self.assembly, group, &mut self.text);
            self.group = group;
        }
        put_all(self.text.as_slice(), sink)
    }
}

/// Writes the names of a group in place of a text, as ` A,B `.
fn write_names(assembly: &Assembly, group: u32, text: &mut ArrayVec<u8, MOST_NAME_BYTES>)
    ensures { text.new.items ≡ spaced_names (names_of assembly.now) group }
{
    text.clear();
    text.push(b' ');
    let pieces = assembly.piece_count();
    let mut separator: &[u8] = b"";
    for piece in 0..pieces {
        if is_in_set(group, piece) {
            let name = assembly.piece_name(piece).as_bytes();
            add(text, separator);
            add(text, name);
            separator = b",";
        }
    }
    text.push(b' ');
}

/// Adds bytes for which the text has room.
fn add(text: &mut ArrayVec<u8, MOST_NAME_BYTES>, bytes: &[u8])
    requires { array_vec_len text.old + length bytes.now ≤ MOST_NAME_BYTES }
    ensures { text.new.items ≡ text.old.items ++ bytes.now }
{
    let _has_room = text.try_extend_from_slice(bytes);
}

/// Puts a line with its number, as `1 t0 A,B -x 2`, or `1 t0 A,B -x 2 out`.
pub fn put_line<W: Sink>(
    names: &mut KeptNames<'_>,
    number: u32,
    line: GrowingLine,
    out: bool,
    sink: &mut W,
) -> Result<(), WriteFault>
    ensures names { names.new ≡ names.old }
    ensures puts { Puts W.Sink sink.old sink.new
        (move_line names.old number (move_line_of line out)) result }
{
    put_number(number, sink)?;
    put_all(b" t", sink)?;
    put_number(line.tray, sink)?;
    names.put(line.group, sink)?;
    put_steps(line.direction, line.units, out, sink)
}

/// Puts the end of a line, as `-x 2`, or `-x 2 out`.
fn put_steps<W: Sink>(
    direction: Direction,
    units: u32,
    out: bool,
    sink: &mut W,
) -> Result<(), WriteFault>
    ensures { Puts W.Sink sink.old sink.new
        (text_line (name_of direction ∷ decimal units ∷ out_word out)) result }
{
    let name = direction.name();
    let mut buffer = Buffer::new();
    let units = buffer.format(units).as_bytes();
    if out {
        put_words(&[&name, units, b"out"], sink)
    } else {
        put_words(&[&name, units], sink)
    }
}

/// Puts the names of the pieces of a group, as `A,B`.
pub fn put_names<W: Sink>(assembly: &Assembly, group: u32, sink: &mut W) -> Result<(), WriteFault>
    ensures { Puts W.Sink sink.old sink.new
        (join_with_byte 44 (names_from 0 group (names_of assembly.now))) result }
{
    let mut separator: &[u8] = b"";
    for piece in 0..assembly.piece_count() {
        if is_in_set(group, piece) {
            let name = assembly.piece_name(piece).as_bytes();
            put_all(separator, sink)?;
            put_all(name, sink)?;
            separator = b",";
        }
    }
    Ok(())
}

/// Puts how a run closed, as `apart in 3 steps`.
pub fn put_closing<W: Sink>(closing: Closing, steps: u64, sink: &mut W) -> Result<(), WriteFault>
    ensures { Puts W.Sink sink.old sink.new (closing_line closing steps) result }
{
    match closing {
        Closing::Apart => put_words(
            &[
                b"apart",
                b"in",
                Buffer::new().format(steps).as_bytes(),
                b"steps",
            ],
            sink,
        ),
        Closing::Waiting(low, high) => put_waiting(low, high, steps, sink),
        Closing::Trapped(trap, procedure, pc) => put_trap(trap, procedure, pc, steps, sink),
        Closing::Stopped => put_words(
            &[
                b"stopped",
                b"after",
                Buffer::new().format(steps).as_bytes(),
                b"steps",
            ],
            sink,
        ),
    }
}

/// Puts the bounds of a question, as `waiting 0 2 after 1 steps`.
fn put_waiting<W: Sink>(low: i32, high: i32, steps: u64, sink: &mut W) -> Result<(), WriteFault>
    ensures { Puts W.Sink sink.old sink.new
        (closing_line (closings.Waiting low high) steps) result }
{
    put_words(
        &[
            b"waiting",
            Buffer::new().format(low).as_bytes(),
            Buffer::new().format(high).as_bytes(),
            b"after",
            Buffer::new().format(steps).as_bytes(),
            b"steps",
        ],
        sink,
    )
}

/// Puts a trap and its place, as `trap 3 NotFree proc 0 pc 5 after 1 steps`.
fn put_trap<W: Sink>(
    trap: Trap,
    procedure: u8,
    pc: u16,
    steps: u64,
    sink: &mut W,
) -> Result<(), WriteFault>
    ensures { Puts W.Sink sink.old sink.new
        (closing_line (closings.Trapped trap procedure pc) steps) result }
{
    put_words(
        &[
            b"trap",
            Buffer::new().format(trap.number()).as_bytes(),
            trap.name().as_bytes(),
            b"proc",
            Buffer::new().format(procedure).as_bytes(),
            b"pc",
            Buffer::new().format(pc).as_bytes(),
            b"after",
            Buffer::new().format(steps).as_bytes(),
            b"steps",
        ],
        sink,
    )
}

/// Puts the levels, as `levels 1.3`, or `levels -` without an out.
pub fn put_levels<W: Sink>(levels: &[u32], sink: &mut W) -> Result<(), WriteFault>
    ensures { Puts W.Sink sink.old sink.new (levels_line levels.now) result }
{
    if levels.is_empty() {
        return put_words(&[b"levels", b"-"], sink);
    }
    put_all(b"levels ", sink)?;
    let mut separator: &[u8] = b"";
    for level in levels {
        put_all(separator, sink)?;
        put_number(*level, sink)?;
        separator = b".";
    }
    put_all(b"\n", sink)
}
