//! The draft of a plan that makes motions one after the other.

ghost use Rattle.std.specs.Prelude.{◌<◌, All, IfErr};
ghost use Rattle.burr_code.specs.declared.limits.TheConstants.{TRAYS};
ghost use Rattle.burr_code.specs.Instruction.{IsInRange};
ghost use Rattle.burr_code.specs.Meaning.{meaning};
ghost use Rattle.burr_from_sheet.specs.Drafts.{IsOfDraft, MayBeMade};

use crate::check::SheetFault;
use crate::situation::Situation;
use burr_assembly::Assembly;
use burr_code::limits::{MOST_CODE, MOST_PROCEDURES, TRAYS};
use burr_code::{Instr, encode};
use burr_container::{Plan, Procedure};
use burr_state::Motion;
use std::alloc::{AllocError, Global};
use std::mem::replace;

/// A plan whose run makes these motions of an assembly's pieces, and then halts.
pub fn draft_of(
    alloc: Global,
    assembly: &Assembly,
    motions: &[Motion],
) -> Result<DraftedPlan, SheetFault>
    requires { All MayBeMade motions.now }
    ensures { IfErr result IsOfDraft }
{
    let start = Situation::at_start(assembly.piece_count());
    let mut draft = Draft::new(alloc, start);
    let mut line = 0;
    for (place, motion) in motions.iter().enumerate() {
        if begins_line(&motions[..place], motion) {
            line += 1;
        }
        draft.add_motion(alloc, motion, line, &motions[place + 1..])?;
    }
    let procedures = draft.into_procedures(alloc, start, line.max(1))?;
    Ok(DraftedPlan { procedures })
}

/// Whether a motion that follows these ones begins a line of the sheet.
fn begins_line(before: &[Motion], motion: &Motion) -> bool {
    match before {
        [] => true,
        [.., last] => {
            last.out
                || last.group != motion.group
                || last.tray != motion.tray
                || last.dir != motion.dir
        }
    }
}

/// Code under way. It is cut into parts where it grows too long for one procedure.
#[derive(Drop)]
struct Draft {
    /// The parts before the one that is under way.
    parts: Vec<DraftedProcedure>,
    /// What holds where the part under way begins.
    start: Situation,
    code: DraftedCode,
    /// What holds after that code.
    situation: Situation,
}

impl Draft {
    /// A draft without code, of a run that begins so.
    fn new(alloc: Global, start: Situation) -> Draft {
        Draft {
            parts: Vec::new(alloc),
            start,
            code: DraftedCode::new(alloc),
            situation: start,
        }
    }

    /// Adds the instructions of a motion on a line of the sheet, which these motions follow.
    fn add_motion(
        &mut self,
        alloc: Global,
        motion: &Motion,
        line: usize,
        later: &[Motion],
    ) -> Result<(), SheetFault>
        requires made { MayBeMade motion.now }
        requires later { All MayBeMade later.now }
        ensures { IfErr result IsOfDraft }
    {
        if motion.tray != self.situation.tray {
            self.add(alloc, &Instr::Tray(motion.tray), line)?;
            self.situation.turn_to(motion.tray);
        }
        if motion.group != self.situation.grip {
            self.add(alloc, &Instr::Grip(motion.group), line)?;
            self.situation.grip = motion.group;
        }
        if motion.out {
            let there = self.tray_for(motion.group, later);
            self.add(alloc, &Instr::Aside(motion.dir, there), line)?;
            self.situation.go_aside(there);
        } else {
            self.add(alloc, &Instr::Step(motion.dir), line)?;
            self.situation.step(motion.dir);
        }
        Ok(())
    }

    /// Adds an instruction for a line of the sheet, to another part where this one has no room. Main
    /// and those that it calls are at most 16.
    fn add(&mut self, alloc: Global, instruction: &Instr<'_>, line: usize) -> Result<(), SheetFault>
        requires { IsInRange (meaning instruction.now) }
        ensures { IfErr result IsOfDraft }
    {
        if !self.code.has_room_for(instruction) {
            if self.parts.len() >= MOST_PROCEDURES - 2 {
                return Err(SheetFault::TooLong(line));
            }
            self.end_part(alloc, line)?;
        }
        self.code.add(alloc, instruction, line)?;
        Ok(())
    }

    /// Ends the part under way, a procedure that returns, and begins another one.
    fn end_part(&mut self, alloc: Global, line: usize) -> Result<(), AllocError> {
        self.code.add(alloc, &Instr::Ret, line)?;
        let code = replace(&mut self.code, DraftedCode::new(alloc));
        let start = replace(&mut self.start, self.situation);
        self.parts.push(DraftedProcedure {
            start,
            code,
            end: Some(self.situation),
        })?;
        Ok(())
    }

    /// The procedures of a run that begins so, and halts after all code: the only part is main, and
    /// of several main calls one after the other.
    fn into_procedures(
        mut self,
        alloc: Global,
        start: Situation,
        line: usize,
    ) -> Result<Vec<DraftedProcedure>, AllocError> {
        if !self.parts.is_empty() {
            self.end_part(alloc, line)?;
            self.code = calls_of(alloc, &self.parts)?;
        }
        self.code.add(alloc, &Instr::Halt, line)?;
        let mut procedures = self.parts;
        procedures.insert(
            0,
            DraftedProcedure {
                start,
                code: self.code,
                end: None,
            },
        )?;
        Ok(procedures)
    }

    /// The tray that a group goes to: the one in which the first of these later motions that moves a
    /// piece of it does so, else the lowest one in which no piece lies.
    fn tray_for(&self, group: u32, later: &[Motion]) -> u8
        requires { All MayBeMade later.now }
        ensures { result < TRAYS }
    {
        for motion in later {
            if motion.group & group != 0 {
                return motion.tray;
            }
        }
        self.situation.lowest_empty_tray()
    }
}

/// Code that calls the procedures after main, which are these, one after the other.
fn calls_of(alloc: Global, parts: &[DraftedProcedure]) -> Result<DraftedCode, AllocError> {
    let mut code = DraftedCode::new(alloc);
    let mut callee: u8 = 0;
    for part in parts {
        callee = callee.saturating_add(1);
        code.add(alloc, &Instr::Call(callee), part.code.line_at(0))?;
    }
    Ok(code)
}

// The code of a procedure of a draft.

/// The code of a procedure, and what each of its instructions is for.
#[derive(Drop)]
pub struct DraftedCode {
    bytes: Vec<u8>,
    /// One for each instruction, in their order.
    purposes: Vec<Purpose>,
}

/// What an instruction is for.
#[derive(Clone, Copy)]
struct Purpose {
    /// Where the instruction stands in the code.
    position: usize,
    /// The line of the sheet that it is for.
    line: usize,
}

impl DraftedCode {
    /// Code without an instruction.
    pub fn new(alloc: Global) -> DraftedCode {
        DraftedCode {
            bytes: Vec::new(alloc),
            purposes: Vec::new(alloc),
        }
    }

    /// Whether there is room for an instruction, and for the `halt` or `ret` of one byte after it.
    pub fn has_room_for(&self, instruction: &Instr<'_>) -> bool {
        instruction.size() < MOST_CODE.saturating_sub(self.bytes.len())
    }

    /// Adds an instruction that is for a line of the sheet.
    pub fn add(
        &mut self,
        alloc: Global,
        instruction: &Instr<'_>,
        line: usize,
    ) -> Result<(), AllocError>
        requires { IsInRange (meaning instruction.now) }
    {
        let bytes = encode(alloc, instruction)?;
        let position = self.bytes.len();
        self.purposes.push(Purpose { position, line })?;
        self.bytes.extend_from_slice(&bytes)?;
        Ok(())
    }

    /// The bytes.
    pub fn as_bytes(&self) -> &[u8] {
        &self.bytes
    }

    /// How many instructions there are.
    pub fn count(&self) -> i32 {
        i32::try_from(self.purposes.len()).unwrap_or(i32::MAX)
    }

    /// The line of the sheet that the instruction at a position is for.
    pub fn line_at(&self, position: u16) -> usize {
        let mut line = 1;
        for purpose in &self.purposes {
            if purpose.position > usize::from(position) {
                break;
            }
            line = purpose.line;
        }
        line
    }
}

// A plan that is drafted, and not judged yet.

/// The procedures of a drafted plan, main first. Each instruction is one step of the plan's run.
#[derive(Drop)]
pub struct DraftedPlan {
    pub procedures: Vec<DraftedProcedure>,
}

/// A procedure of a drafted plan.
#[derive(Drop)]
pub struct DraftedProcedure {
    /// What holds where it begins.
    pub start: Situation,
    pub code: DraftedCode,
    /// What holds where it returns, which main does not.
    pub end: Option<Situation>,
}

impl DraftedPlan {
    /// The plan, of version 1.
    pub fn plan(&self, alloc: Global, assembly: &Assembly) -> Result<Plan, AllocError> {
        let mut procs = Vec::new(alloc);
        for procedure in &self.procedures {
            procs.push(procedure.procedure(alloc, self.steps_of(procedure))?)?;
        }
        Ok(Plan {
            version: 1,
            name: Vec::from_slice(alloc, assembly.name().as_bytes())?,
            pieces: assembly.piece_count(),
            budget: self.steps().unsigned_abs(),
            procs,
        })
    }

    /// How many steps a run makes.
    fn steps(&self) -> i32 {
        let mut steps: i32 = 0;
        for procedure in &self.procedures {
            steps = steps.saturating_add(procedure.code.count());
        }
        steps
    }

    /// How many steps a run makes from where it comes into a procedure to where it comes out again.
    fn steps_of(&self, procedure: &DraftedProcedure) -> i32 {
        match procedure.end {
            Some(_) => procedure.code.count(),
            None => self.steps(),
        }
    }

    /// The line of the sheet that an instruction is for.
    pub fn line_at(&self, procedure: u8, position: u16) -> usize {
        match self.procedures.get(usize::from(procedure)) {
            Some(procedure) => procedure.code.line_at(position),
            None => 1,
        }
    }
}

impl DraftedProcedure {
    /// The procedure, in which a run makes this many steps: one label, where the code begins.
    fn procedure(&self, alloc: Global, steps: i32) -> Result<Procedure, AllocError> {
        let mut labels = Vec::new(alloc);
        labels.push((0, self.start.frame(alloc, steps)?))?;
        let exit = match &self.end {
            Some(end) => Some(end.exit_frame(alloc)?),
            None => None,
        };
        Ok(Procedure {
            params: 0,
            results: 0,
            exit,
            labels,
            code: Vec::from_slice(alloc, self.code.as_bytes())?,
        })
    }
}
