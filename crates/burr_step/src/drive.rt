ghost use Rattle.std.specs.Prelude.{◌≡◌, ◌≤◌, ◌<◌, ◌↔◌, IfOk, IsTrue, None};
ghost use Rattle.burr_io.specs.Sink.{Puts};
ghost use Rattle.burr_assembly.specs.Rules.Homes.{names_of};
ghost use Rattle.burr_step.specs.Rules.StepTexts.{show_text};
ghost use Rattle.burr_state.specs.Rules.Space.{motion_of};
ghost use Rattle.burr_state.specs.Views.Benches.{setup_of};
ghost use Rattle.burr_bench.specs.Soundness.Machine.{IsSafeBench};
ghost use Rattle.burr_sheet.specs.Rules.SheetText.{motion_count};
ghost use Rattle.burr_step.specs.Views.Driving.{HaltsSo, IsLasting, IsReady, MovesOn, Answers, Arrives, Goes, led_of, resumed, IsAhead, HasComeToRest, MakesLine, AreApart, ended};
ghost use Rattle.burr_step.specs.Rules.Drive.{GoesTo, HaltsAt};
ghost use Rattle.burr_step.specs.Rules.Moves.{Rests, MovesNext};

use crate::state_text::put_state;
use burr_assembly::Assembly;
use burr_bench::{
    Machine, Motion, OwnedProgram, Program, Progress, Suspended, an_accepted_bench_never_traps,
};
use burr_blocking::Blocking;
use burr_code::Instr;
use burr_io::{Sink, WriteFault};
use burr_sheet::GrowingLine;
use burr_verify::{Accepted, a_fitting_plan_is_from_a_container};
use burr_voxels::Direction;
use std::alloc::{AllocError, Global};
use std::marker::Model;

/// A run of an accepted plan that is led move by move. Motions are joined into moves as a sheet joins
/// them into lines, but never over a question: so a move that was told never grows.
#[derive(Drop)]
pub struct Drive<'a> {
    machine: Machine<'a>,
    /// How many moves were made.
    moves: u32,
    /// How many questions were answered.
    answers: u32,
}

impl<'a> Model for Drive<'a> {
    ghost use Rattle.burr_step.specs.Views.Driving.{Driving, driving, IsDriving};

    ghost Value = { Driving };

    ghost view = { λ d. driving d.machine d.moves d.answers };

    ghost invariant = { λ d. IsDriving (driving d.machine d.moves d.answers) };
}

/// A whole move: unit steps of one group in one tray along one direction, perhaps with the way out.
#[derive(Clone, Copy, Debug, PartialEq, Eq)]
pub struct Move {
    /// The moves of a run are counted from 1.
    pub number: u32,
    pub tray: u8,
    /// The pieces that move: bit p is piece p.
    pub group: u32,
    pub direction: Direction,
    pub units: u32,
    /// Where the group goes out after these units: the tray to which it goes, 0 to 31.
    pub out: Option<u8>,
    /// The pieces that are apart by the move: bit p is piece p.
    pub apart: u32,
}

/// A question for which a run waits.
#[derive(Clone, Copy, Debug, PartialEq, Eq)]
pub struct Question {
    /// The questions of a run are counted from 1.
    pub number: u32,
    /// The least number that answers it.
    pub low: i32,
    /// The greatest one.
    pub high: i32,
    /// Which procedure asks.
    pub procedure: u8,
    /// Where the question stands in its code.
    pub pc: u16,
}

/// Why a run makes no move.
#[derive(Clone, Copy, Debug, PartialEq, Eq)]
pub enum Halt {
    /// It waits for an answer.
    Asks(Question),
    /// It has ended, after this many steps: each piece is apart.
    Ends(u64),
}

/// Where a drive stands, and nothing of what it leads.
#[derive(Drop)]
pub(crate) struct Standing {
    run: Suspended,
    moves: u32,
    answers: u32,
}

impl Model for Standing {
    ghost use Rattle.burr_step.specs.Rules.Drive.{Led, led};

    ghost Value = { Led };

    ghost view = { λ s. led s.run s.moves s.answers };
}

impl Standing {
    /// Where no drive stands: what stands in for a drive's while a drive goes on from that.
    pub(crate) fn nowhere() -> Standing {
        Standing {
            run: Suspended::nowhere(),
            moves: 0,
            answers: 0,
        }
    }

    /// How many moves were made.
    pub(crate) fn moves(&self) -> u32
        ensures { result ≡ self.now.moves }
    {
        self.moves
    }
}

impl<'a> Drive<'a> {
    /// A run of an accepted plan before its first move.
    pub fn new<'c: 'a, B: Blocking>(accepted: &Accepted<'a, 'c, B>) -> Drive<'a>
        ensures { IsReady accepted.now.judged result }
    {
        an_accepted_bench_never_traps();
        a_fitting_plan_is_from_a_container();
        let mut machine = Machine::start(accepted);
        come_to_rest(&mut machine);
        Drive {
            machine,
            moves: 0,
            answers: 0,
        }
    }

    /// The assembly and the program, as copies that borrow nothing.
    pub(crate) fn keep(&self, alloc: Global) -> Result<(Assembly, OwnedProgram), AllocError>
        ensures { IfOk result (λ kept.
            (kept.0 ≡ self.now.bench.assembly) × (kept.1 ≡ self.now.bench.program)) }
    {
        self.machine.keep(alloc)
    }

    /// Lets go of the program and the assembly, and keeps where the drive stands.
    pub(crate) fn suspend(self) -> Standing
        ensures stands { result ≡ led_of self.entry }
        ensures lasting { IsLasting self.entry }
    {
        Standing {
            run: self.machine.suspend(),
            moves: self.moves,
            answers: self.answers,
        }
    }

    /// The drive that was suspended where it stood. That it led this program on this assembly is the
    /// caller's condition.
    pub(crate) fn resume(
        program: Program<'a>,
        assembly: &'a Assembly,
        standing: Standing,
    ) -> Drive<'a>
        requires { IsLasting (resumed assembly.now program standing) }
        ensures { result ≡ resumed assembly.entry.now program.entry standing }
    {
        Drive {
            machine: Machine::resume(program, assembly, standing.run),
            moves: standing.moves,
            answers: standing.answers,
        }
    }

    /// The assembly whose pieces are moved.
    pub fn assembly(&self) -> &'a Assembly
        ensures { result.now ≡ self.now.bench.assembly }
    {
        self.machine.assembly()
    }

    /// How many moves were made.
    pub fn moves(&self) -> u32
        ensures { result ≡ self.now.moves }
    {
        self.moves
    }

    /// Makes the next move, and tells it whole; or tells why there is no next move, and changes
    /// nothing.
    pub fn next(&mut self) -> Result<Move, Halt>
        ensures { MovesOn self.old result self.new }
    {
        a_fitting_plan_is_from_a_container();
        let Some((motion, _tray)) = motion_ahead(&self.machine) else {
            return Err(self.halted());
        };
        let apart = pieces_apart(&self.machine);
        let (line, out) = make_line(motion, &mut self.machine);
        self.moves += 1;
        Ok(Move {
            number: self.moves,
            tray: line.tray,
            group: line.group,
            direction: line.direction,
            units: line.units,
            out,
            apart: pieces_apart(&self.machine) & !apart,
        })
    }

    /// Goes on without telling the moves, until that of a number is made, which is not below that of
    /// the moves made, the caller's condition; or to where the run halts before it, and tells why.
    pub fn go_to(&mut self, number: u32) -> Result<(), Halt>
        requires { self.old.moves ≤ number }
        ensures goes { Goes self.old self.new (λ setup d e. GoesTo setup number d e) }
        ensures arrives { Arrives number (setup_of self.old.bench) result (led_of self.new) }
    {
        // The invariant of this type has it that the run rests.
        let _ = &self.machine;
        while self.moves < number {
            self.next()?;
        }
        Ok(())
    }

    /// Answers the question of a number, where it is the one for which the run waits and the answer
    /// fits it. False where it is not, and then nothing changes.
    pub fn answer(&mut self, question: u32, answer: i32) -> bool
        ensures { Answers question answer self.old result self.new }
    {
        a_fitting_plan_is_from_a_container();
        if question != self.answers + 1 {
            return false;
        }
        let Progress::Went(_) = self.machine.step(Some(answer)) else {
            return false;
        };
        come_to_rest(&mut self.machine);
        self.answers += 1;
        true
    }

    /// Why no move stands next: the question for which the run waits, or its end; None where one does.
    pub fn halt(&self) -> Option<Halt>
        ensures { HaltsSo self.now result }
    {
        a_fitting_plan_is_from_a_container();
        if self.machine.ended() {
            return Some(Halt::Ends(self.machine.steps()));
        }
        let (low, high) = self.machine.question()?;
        Some(Halt::Asks(Question {
            number: self.answers + 1,
            low,
            high,
            procedure: self.machine.proc(),
            pc: self.machine.pc(),
        }))
    }

    /// Puts where the run stands, as the stepper does.
    pub fn show<W: Sink>(&self, sink: &mut W) -> Result<(), WriteFault>
        ensures { Puts W.Sink sink.old sink.new
            (show_text (names_of self.now.bench.assembly) self.now.bench.state) result }
    {
        a_fitting_plan_is_from_a_container();
        put_state(&self.machine, sink)
    }

    /// Why the run makes no move, where none stands next.
    fn halted(&self) -> Halt
        requires { IsAhead (setup_of self.now.bench) self.now.bench.state None }
        ensures { HaltsAt (setup_of self.now.bench) (led_of self.now) result }
    {
        a_fitting_plan_is_from_a_container();
        let _ = &self.machine;
        match self.halt() {
            Some(halt) => halt,
            None => unreachable!(),
        }
    }
}

/// Makes steps that move no piece, up to where the run rests: before a motion or a question, or at its
/// end.
fn come_to_rest(machine: &mut Machine<'_>)
    requires { IsSafeBench machine.old }
    ensures { HasComeToRest machine.old machine.new }
{
    a_fitting_plan_is_from_a_container();
    while !rests(machine) {
        let _ = machine.step(None);
    }
}

/// Whether a motion or a question stands next, or the run has ended.
fn rests(machine: &Machine<'_>) -> bool
    requires { IsSafeBench machine.now }
    ensures { IsTrue result ↔ Rests (setup_of machine.now) machine.now.state }
{
    a_fitting_plan_is_from_a_container();
    let Some((instruction, _size)) = machine.bench().next() else {
        return true;
    };
    match instruction {
        Instr::Step(_) | Instr::Aside(..) | Instr::Ask(..) | Instr::Pick(_) => true,
        _ => machine.ended(),
    }
}

/// The motion that stands next, and where it goes out the tray to which the group goes.
fn motion_ahead(machine: &Machine<'_>) -> Option<(Motion, Option<u8>)>
    requires { IsSafeBench machine.now }
    ensures { IsAhead (setup_of machine.now) machine.now.state result }
{
    a_fitting_plan_is_from_a_container();
    if machine.ended() {
        return None;
    }
    let (instruction, _size) = machine.bench().next()?;
    match instruction {
        Instr::Step(direction) => Some((motion(direction, false, machine), None)),
        Instr::Aside(direction, tray) => Some((motion(direction, true, machine), Some(tray))),
        _ => None,
    }
}

/// The motion of the gripped pieces along a direction, in their tray or out of it.
fn motion(direction: Direction, out: bool, machine: &Machine<'_>) -> Motion
    ensures { result ≡ motion_of machine.now.state.grip machine.now.state.tray direction out }
{
    Motion {
        group: machine.grip(),
        tray: machine.tray(),
        dir: direction,
        out,
    }
}

/// Makes the motions of the move that begins with this one, which stands next: their line, and where
/// it goes out the tray to which the group goes.
fn make_line(first: Motion, machine: &mut Machine<'_>) -> (GrowingLine, Option<u8>)
    requires safe { IsSafeBench machine.old }
    requires next { MovesNext (setup_of machine.old) machine.old.state first }
    requires rests { Rests (setup_of machine.old) machine.old.state }
    ensures line { MakesLine machine.old result.0 result.1 machine.new }
    ensures some { 0 < motion_count (ended result.0 result.1) }
{
    a_fitting_plan_is_from_a_container();
    let mut line = GrowingLine::before(first);
    loop {
        let Some((motion, out)) = motion_ahead(machine) else {
            return (line, None);
        };
        if !line.is_of(motion) {
            return (line, None);
        }
        let _ = machine.step(None);
        come_to_rest(machine);
        if out.is_some() {
            return (line, out);
        }
        line = line.with_step();
    }
}

/// The pieces that are apart: bit p is piece p.
fn pieces_apart(machine: &Machine<'_>) -> u32
    ensures { AreApart machine.now.state result }
{
    let state = machine.bench().state();
    let mut apart = 0;
    for piece in 0..state.piece_count() {
        if state.place(piece).is_apart() {
            apart |= 1 << piece;
        }
    }
    apart
}
