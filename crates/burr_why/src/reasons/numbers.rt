//! Operands, slots, numbers and costs; labels, procedures, and the end of a run.

use super::{Reasons, Site};
use burr_code::Instr;
use burr_code::limits::{MOST_NUMBER, MOST_PIECES, MOST_STATE_GUARDS, SLOTS};
use burr_forms::limits::{MOST_POINTS, MOST_SYMBOLS};
use burr_frames::State;
use burr_lines::{FramePart, PlanFrame, PlanPart, Shown};
use burr_verify::{Refusal, point_of};

impl Reasons<'_, '_> {
    /// How many operands are there, and how many an instruction takes.
    pub(super) fn add_missing_operand(&mut self, instruction: &Instr<'_>, site: &Site) {
        let count = site.before.operands.len();
        let needed = match instruction {
            Instr::Add | Instr::Sub => 2,
            Instr::Call(callee) => self.plan.parameters(usize::from(*callee)),
            _ => 1,
        };
        self.note(format_args!("operands: {count} are there, {needed} are needed"));
    }

    /// The slot that is not known, and the frame that does not tell of it.
    pub(super) fn add_unknown_slot(&mut self, slot: u8, site: &Site) {
        self.note(format_args!("slot {slot} is not known"));
        if site.label.is_some() {
            self.add_last_part(site, FramePart::Head);
            self.note(format_args!("this frame has no line of slot {slot}"));
        }
    }

    /// What the counter is, and its range.
    pub(super) fn add_negative_counter(&mut self, slot: u8, site: &Site) {
        if let Some(Some(number)) = site.before.slots.get(usize::from(slot)) {
            let number = *number;
            self.note(format_args!("slot {slot} is {number}, and counts down from 0 or more"));
        }
        self.add_point(site, &site.before);
        self.add_last_part(site, FramePart::Slot(slot));
    }

    /// What the result is.
    pub(super) fn add_large_number(&mut self, instruction: &Instr<'_>, site: &Site) {
        if let [.., lower, upper] = site.before.operands.as_slice() {
            let number = match instruction {
                Instr::Sub => lower.saturating_sub(*upper),
                _ => lower.saturating_add(*upper),
            };
            self.note(format_args!("the result is {number}, beyond {MOST_NUMBER} either way"));
        }
        self.add_point(site, &site.before);
    }

    /// Names the label that stands inside an instruction.
    pub(super) fn add_label_inside(&mut self, instruction: &Instr<'_>, site: &Site) {
        self.note("this instruction has a label inside, after its first byte");
        let procedure = site.procedure;
        let last = usize::from(site.pc).saturating_add(instruction.size().saturating_sub(1));
        if let Some(label) = self.plan.label_before(procedure, last) {
            self.add_part(PlanPart::Label { procedure, label });
        }
    }

    /// Why a procedure may not be called here.
    pub(super) fn add_bad_callee(&mut self, callee: usize, site: &Site) {
        if self.plan.container.proc_count() <= callee {
            return self.note(format_args!("there is no procedure {callee}"));
        }
        let caller = Shown(self.lines.name_of(PlanPart::Procedure(site.procedure)));
        self.note(format_args!("{caller} calls only procedures that stand after it"));
        self.add_part(PlanPart::Procedure(callee));
    }

    /// The pieces that are not apart.
    pub(super) fn add_pieces_together(&mut self, site: &Site) {
        for piece in 0..MOST_PIECES as u8 {
            if let Some(tray) = site.before.place(piece).tray() {
                let name = self.plan.piece_name(piece);
                self.note(format_args!("{name} is in tray {tray}, and not apart"));
            }
        }
    }
}

// Costs, and what is too much to be judged.

impl Reasons<'_, '_> {
    /// How many steps are left, and how many are needed.
    pub(super) fn add_want_of_cost(&mut self, instruction: &Instr<'_>, site: &Site) {
        let left = site.before.cost;
        let needed = self.needed(instruction, site);
        self.note(format_args!("cost {left} is left, {needed} is needed"));
        self.add_point(site, &site.before);
        if let Instr::Call(callee) = instruction {
            self.add_frame_line(
                PlanFrame::of_label(usize::from(*callee), 0),
                FramePart::Cost,
            );
            self.note("a call takes 1 more than this");
        }
        self.add_last_part(site, FramePart::Cost);
    }

    /// How many steps an instruction needs: one, and those of a procedure that it calls.
    fn needed(&self, instruction: &Instr<'_>, site: &Site) -> i64 {
        let Instr::Call(callee) = instruction else {
            return 1;
        };
        let callee = usize::from(*callee);
        let arguments = point_of(&site.before.arguments(self.plan.parameters(callee)));
        match self.plan.frame(callee, 0) {
            Some(entry) => entry.cost().value_at(&arguments).saturating_add(1),
            None => 1,
        }
    }

    /// What would be one too many.
    pub(super) fn add_too_many(&mut self, instruction: &Instr<'_>, site: &Site) {
        match instruction {
            Instr::Ask(low, high) if site.before.symbols.len() < MOST_SYMBOLS => {
                let (low, high) = (*low, *high);
                self.note(format_args!(
                    "with {low} to {high} the open numbers have more than {MOST_POINTS} points"
                ));
            }
            Instr::Ask(..) => self.note(format_args!(
                "{MOST_SYMBOLS} numbers are open, and the answer is one more"
            )),
            Instr::Down(..) => self.note(format_args!(
                "{MOST_STATE_GUARDS} guards are there, and this makes one more"
            )),
            _ => self.note("its results make too many open numbers, guards or points"),
        }
    }

    /// Says how many points the ranges of a frame have, where a label is at the place that a refusal
    /// names and they are too many; else what is too much at the place.
    pub(super) fn add_large_state(&mut self, refusal: &Refusal) {
        let (procedure, pc) = (usize::from(refusal.proc), usize::from(refusal.pc));
        let Some((label, points)) = self.wide_label(procedure, pc) else {
            return self.add_at_site(refusal);
        };
        self.add_part(PlanPart::Label { procedure, label });
        self.note(format_args!(
            "its slots have {points} points together, and {MOST_POINTS} are the most"
        ));
        for v in 0..SLOTS as u8 {
            let frame = PlanFrame::of_label(procedure, label);
            if let Some(line) = self.lines.line_in(frame, FramePart::Slot(v)) {
                self.report.add_line(self.plan.file, &line);
            }
        }
    }

    /// The label at a place of the code, and how many points the ranges of its frame have together,
    /// guards not counted; none where no label is there, or they are not too many.
    #[inline(never)]
    fn wide_label(&self, procedure: usize, pc: usize) -> Option<(usize, u64)> {
        let label = self.plan.label_at(procedure, pc)?;
        let state = State::of(&self.plan.frame(procedure, label)?);
        let points = state.ranges().iter().fold(1u64, |points, (low, high)| {
            points.saturating_mul(u64::from(high.abs_diff(*low)).saturating_add(1))
        });
        (u64::from(MOST_POINTS) < points).then_some((label, points))
    }
}
