//! The place at which a rule is broken, with all that is around it.

use super::Reasons;
use arrayvec::ArrayVec;
use burr_code::Instr;
use burr_code::limits::{MOST_CODE, SLOTS};
use burr_forms::Point;
use burr_forms::limits::MOST_SYMBOLS;
use burr_lines::{FramePart, PlanFrame, PlanPart, PlanText};
use burr_verify::{PointState, Refusal, state_after, state_before};

/// Where a rule is broken.
#[derive(Drop)]
pub struct Site {
    pub procedure: usize,
    pub pc: u16,
    /// The last label at the instruction or before it.
    pub label: Option<usize>,
    /// The point that is named; nothing where none is.
    point: Point,
    /// What holds before the instruction, at the point.
    pub before: PointState,
    /// What each open number is, in the order of the point, and the place of its instruction.
    symbols: ArrayVec<(Symbol, usize), MOST_SYMBOLS>,
    /// The place of the `grip` that gripped the pieces; none where a frame tells of them.
    pub gripped_at: Option<usize>,
    /// The frame that tells where the pieces lie: the label's or, after a call, the exit frame of the
    /// procedure that was called.
    told: Option<PlanFrame>,
}

impl Site {
    /// The place of a refusal, and what holds there.
    pub fn of(plan: &PlanText<'_, '_>, refusal: &Refusal) -> Site {
        let (procedure, pc) = (usize::from(refusal.proc), usize::from(refusal.pc));
        let mut site = Site {
            procedure,
            pc: refusal.pc,
            label: plan.label_before(procedure, pc),
            point: Point::new(),
            before: PointState::new(),
            symbols: ArrayVec::new(),
            gripped_at: None,
            told: None,
        };
        if let Some(point) = &refusal.point {
            let _ = site.point.try_extend_from_slice(point);
        }
        if let Some(label) = site.label {
            site.add_since(plan, label);
        }
        site.before = site.state_before(plan);
        site
    }

    /// Adds what the frame of a label brings, and then the instructions up to this one and with it.
    fn add_since(&mut self, plan: &PlanText<'_, '_>, label: usize) {
        self.add_frame(plan, label);
        let pc = usize::from(self.pc);
        let mut at = plan.position(self.procedure, label).unwrap_or(pc);
        for _ in 0..MOST_CODE {
            let Some(instruction) = plan.instruction_at(self.procedure, at) else {
                break;
            };
            self.add(&instruction, at, plan);
            at = at.saturating_add(instruction.size());
            if pc < at {
                break;
            }
        }
    }

    /// Adds what the frame of a label tells.
    fn add_frame(&mut self, plan: &PlanText<'_, '_>, label: usize) {
        let Some(frame) = plan.frame(self.procedure, label) else {
            return;
        };
        for v in 0..SLOTS as u8 {
            if frame.slot(v).is_some() {
                let _ = self.symbols.try_push((Symbol::Slot(v), 0));
            }
        }
        self.told = Some(PlanFrame::of_label(self.procedure, label));
    }

    /// Adds what an instruction at this place brings.
    fn add(&mut self, instruction: &Instr<'_>, pc: usize, plan: &PlanText<'_, '_>) {
        match instruction {
            Instr::Grip(_) => self.gripped_at = Some(pc),
            Instr::Ask(..) => {
                let _ = self.symbols.try_push((Symbol::Answer, pc));
            }
            Instr::Call(callee) => self.add_call(usize::from(*callee), pc, plan),
            _ => {}
        }
    }

    /// Adds what a call of a procedure brings.
    fn add_call(&mut self, callee: usize, pc: usize, plan: &PlanText<'_, '_>) {
        let Some(exit) = plan.exit(callee) else {
            return;
        };
        for n in 0..exit.result_count() {
            let _ = self.symbols.try_push((Symbol::Result(n), pc));
        }
        self.gripped_at = None;
        self.told = Some(PlanFrame::at_exit(callee));
    }

    /// What holds before the instruction, at the point; nothing where the verifier does not come to it.
    #[inline(never)]
    pub fn state_before(&self, plan: &PlanText<'_, '_>) -> PointState {
        if let Some(procedure) = plan.procedure(self.procedure) {
            if let Some(state) = state_before(procedure, self.pc) {
                return PointState::at(&state, &self.point);
            }
        }
        PointState::new()
    }

    /// What falls out of the instruction, at the point; none where nothing does.
    #[inline(never)]
    fn fallen_out(&self, plan: &PlanText<'_, '_>) -> Option<PointState> {
        let procedure = plan.procedure(self.procedure)?;
        Some(PointState::at(state_after(procedure, self.pc).as_ref()?, &self.point))
    }

    /// What holds after the instruction, at the point; where no state falls out of it, what holds before
    /// it once its step is paid.
    pub fn state_after(&self, plan: &PlanText<'_, '_>) -> PointState {
        if let Some(state) = self.fallen_out(plan) {
            return state;
        }
        let mut state = self.state_before(plan);
        state.cost = state.cost.saturating_sub(1);
        state
    }
}

/// What an open number is: that of a live slot of the frame, the answer of an instruction, or a result
/// that it brought.
#[derive(Clone, Copy, Default)]
enum Symbol {
    Slot(u8),
    #[default]
    Answer,
    Result(u8),
}

impl Reasons<'_, '_> {
    /// Names the line of a part of the last label's frame, where there is a label.
    pub(super) fn add_last_part(&mut self, site: &Site, part: FramePart) {
        if let Some(label) = site.label {
            self.add_frame_line(PlanFrame::of_label(site.procedure, label), part);
        }
    }

    /// Names the line of a part of the frame that tells where the pieces lie.
    pub(super) fn add_told(&mut self, part: FramePart, site: &Site) {
        if let Some(frame) = site.told {
            self.add_frame_line(frame, part);
        }
    }

    /// Notes the point, where one is named, with what its numbers belong to.
    pub(super) fn add_point(&mut self, site: &Site, state: &PointState) {
        if site.point.is_empty() {
            return;
        }
        self.report.add_words("    where ");
        let procedure = site.procedure;
        for (n, (value, (symbol, pc))) in state.symbols.iter().zip(&site.symbols).enumerate() {
            if n != 0 {
                self.report.add_words(", ");
            }
            let pc = *pc;
            let line = self.lines.line_of(PlanPart::Code { procedure, pc });
            self.add_symbol(*symbol, line.map_or(0, |line| line.number), *value);
        }
        self.report.add_words("\n");
    }

    /// Adds an open number, with what it belongs to, of an instruction in the line of this number.
    fn add_symbol(&mut self, symbol: Symbol, line: usize, value: i32) {
        let report = &mut self.report;
        match symbol {
            Symbol::Slot(slot) => report.add_words(format_args!("slot {slot} is {value}")),
            Symbol::Answer => report.add_words(format_args!(
                "the answer of line {line} is {value}"
            )),
            Symbol::Result(n) => {
                report.add_words(format_args!("result {n} of line {line} is {value}"))
            }
        }
    }
}
