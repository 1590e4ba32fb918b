//! Frames that are not met, or malformed.

use super::{Reasons, Site};
use crate::pieces::Whereabouts;
use burr_code::limits::{MOST_PIECES, SLOTS};
use burr_code::{Instr, Labels, Placement, count_in_tray, is_in_set};
use burr_container::FrameRef;
use burr_frames::State;
use burr_lines::{FramePart, PlanFrame, PlanPart, Shown};
use burr_verify::{Offset, PointState, Refusal};
use std::fmt;

impl Reasons<'_, '_> {
    /// What differs from the first frame of a procedure that is called, with the arguments in its slots.
    pub(super) fn add_missed_entry(&mut self, callee: usize, site: &Site) {
        self.add_point(site, &site.before);
        let mut state = site.state_before(&self.plan);
        let arguments = state.arguments(self.plan.parameters(callee));
        for v in 0..SLOTS {
            state.slots[v] = arguments.get(v).copied();
        }
        state.operands.clear();
        self.add_differences(PlanFrame::of_label(callee, 0), &state, None);
    }

    /// What differs from the exit frame at a `ret`; or that a `halt` or a `ret` may not stand here.
    pub(super) fn add_missed_exit(&mut self, instruction: &Instr<'_>, site: &Site) {
        match (instruction, self.plan.exit(site.procedure)) {
            (_, None) => self.note("main ends by `halt`"),
            (Instr::Ret, Some(_)) => {
                self.add_point(site, &site.before);
                self.add_differences(PlanFrame::at_exit(site.procedure), &site.before, None);
            }
            _ => self.note("only main ends by `halt`; other procedures end by `ret`"),
        }
    }

    /// What differs from the frame of the label that control comes to: where there are several, of the
    /// first one at which something does, the label after the instruction last.
    pub(super) fn add_missed_label(&mut self, instruction: &Instr<'_>, site: &Site) {
        let after = site.state_after(&self.plan);
        self.add_point(site, &after);
        match instruction {
            Instr::Jump(label) => return self.add_arrival(site, usize::from(*label), &after),
            Instr::Pick(labels) => return self.add_first_arrival(site, labels, &after),
            Instr::Down(slot, label) => {
                let mut counted = site.state_after(&self.plan);
                if let Some(Some(number)) = counted.slots.get_mut(usize::from(*slot)) {
                    *number = number.saturating_sub(1);
                }
                if self.add_if_missed(site, usize::from(*label), &counted) {
                    return;
                }
            }
            _ => {}
        }
        let end = usize::from(site.pc).saturating_add(instruction.size());
        if let Some(label) = self.plan.label_at(site.procedure, end) {
            self.add_arrival(site, label, &after);
        }
    }

    /// The same of the first label offered at which something differs.
    fn add_first_arrival(&mut self, site: &Site, labels: &Labels<'_>, after: &PointState) {
        for n in 0..labels.len() {
            if let Some(label) = labels.get(n) {
                if self.add_if_missed(site, usize::from(label), after) {
                    return;
                }
            }
        }
    }

    /// The same of a label where something differs, and whether it does.
    fn add_if_missed(&mut self, site: &Site, label: usize, after: &PointState) -> bool {
        let is_missed = self.differs(PlanFrame::of_label(site.procedure, label), after);
        if is_missed {
            self.add_arrival(site, label, after);
        }
        is_missed
    }

    /// Says what differs from the frame of a label that control comes to.
    fn add_arrival(&mut self, site: &Site, label: usize, after: &PointState) {
        let procedure = site.procedure;
        let name = Shown(self.lines.name_of(PlanPart::Label { procedure, label }));
        self.note(format_args!("what holds after it is not what the frame of {name} says"));
        self.add_differences(
            PlanFrame::of_label(procedure, label),
            after,
            Some(after.cost),
        );
        if self.found.last == Some(FramePart::Cost) && site.label != Some(label) {
            self.add_last_part(site, FramePart::Cost);
            self.note("what is left is counted down from here");
        }
    }
}

// Frames that are malformed by themselves, and the start of a run.

impl Reasons<'_, '_> {
    /// Says what is wrong with a frame by itself, or with main's first frame at the start.
    #[inline(never)]
    pub(super) fn add_malformed_frame(&mut self, refusal: &Refusal) {
        let (procedure, pc) = (usize::from(refusal.proc), usize::from(refusal.pc));
        if let (0, Some(exit)) = (pc, self.plan.exit(procedure)) {
            let state = PointState::at_exit(&exit, &[]);
            self.add_malformed_places(PlanFrame::at_exit(procedure), &state);
        }
        if self.report.is_empty() {
            self.add_malformed_label(procedure, pc);
        }
        if self.report.is_empty() {
            self.add_missed_start();
        }
    }

    /// Says what is wrong with the frame of the label at a place of the code.
    fn add_malformed_label(&mut self, procedure: usize, pc: usize) {
        let Some(label) = self.plan.label_at(procedure, pc) else {
            return;
        };
        if let Some(frame) = self.plan.frame(procedure, label) {
            self.add_malformed_slots(procedure, label, &frame);
            let state = PointState::at(&State::of(&frame), &[]);
            self.add_malformed_places(PlanFrame::of_label(procedure, label), &state);
        }
    }

    /// Says which slots and operands of a label's frame may not be there, or are missing.
    fn add_malformed_slots(&mut self, procedure: usize, label: usize, frame: &FrameRef<'_>) {
        let plan_frame = PlanFrame::of_label(procedure, label);
        let parameters = self.plan.parameters(procedure);
        for v in 0..SLOTS as u8 {
            let fault = match (v < parameters, frame.slot(v).is_some()) {
                (true, false) => "a parameter has no line here",
                (false, true) if label == 0 => "no parameter, so not known at first",
                _ => continue,
            };
            self.add_fault(plan_frame, FramePart::Slot(v), fault);
        }
        if label == 0 && frame.stack_count() != 0 {
            let fault = "a procedure begins without operands";
            self.add_fault(plan_frame, FramePart::Operand(0), fault);
        }
    }

    /// Says which pieces are gripped in another tray, or alone in theirs.
    fn add_malformed_places(&mut self, frame: PlanFrame, state: &PointState) {
        for piece in 0..MOST_PIECES as u8 {
            let (name, place) = (self.plan.piece_name(piece), state.place(piece));
            if is_in_set(state.grip, piece) && !place.is_in(state.tray) {
                let (place, tray) = (Whereabouts(place.tray()), state.tray);
                let fault = format_args!("{name} is {place}, and is gripped in tray {tray}");
                self.add_fault(frame, FramePart::Head, fault);
            }
            if is_alone(state, place) {
                let fault = format_args!("{name} is alone in its tray, so it is apart");
                self.add_fault(frame, FramePart::Piece(piece), fault);
            }
        }
    }

    /// Names a line of a frame, and notes what is wrong there.
    fn add_fault<D: fmt::Display + Drop>(&mut self, frame: PlanFrame, part: FramePart, fault: D) {
        self.add_frame_line(frame, part);
        self.note(fault);
    }

    /// Says how the start of a run differs from main's first frame.
    fn add_missed_start(&mut self) {
        if self.plan.position(0, 0).is_none() {
            return;
        }
        let (procedure, label) = (0, 0);
        self.add_part(PlanPart::Label { procedure, label });
        self.note("a run begins here, with all pieces at home in tray 0 and nothing gripped");
        let home = State::at_home(self.plan.assembly.piece_count());
        let start = PointState::at(&home, &[]);
        self.add_differences(PlanFrame::of_label(procedure, label), &start, None);
    }
}

/// Whether a piece that is there is alone in its tray.
fn is_alone(state: &PointState, place: Placement<Offset>) -> bool {
    let tray = place.tray();
    tray.is_some_and(|tray| count_in_tray(state.places.as_slice(), tray) == 1)
}
