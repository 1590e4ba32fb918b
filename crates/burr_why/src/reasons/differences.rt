//! What a frame says, and what holds where something else does.

ghost use Rattle.burr_forms.specs.Rules.Forms.{AllNear};

use super::Reasons;
use crate::pieces::{Group, Whereabouts};
use arrayvec::ArrayVec;
use burr_code::Placement;
use burr_code::limits::{MOST_OPERANDS, MOST_PIECES, SLOTS};
use burr_container::{ExitRef, FrameRef};
use burr_forms::Point;
use burr_forms::limits::MOST_SYMBOLS;
use burr_frames::State;
use burr_lines::{FramePart, PlanFrame};
use burr_verify::{Offset, PointState, point_of};
use std::fmt;

/// How many differences are told.
const MOST_TOLD: usize = 12;

/// What was found so far to differ from a frame.
#[derive(Clone, Copy, Default)]
pub struct Found {
    /// The frame whose lines are named; none where differences are counted alone.
    told: Option<PlanFrame>,
    count: usize,
    /// The part of the frame that the last difference is of.
    pub last: Option<FramePart>,
}

impl Reasons<'_, '_> {
    /// Names the lines of a frame that tell something else than what holds, each with what differs. The
    /// cost is compared where one is given that is left.
    pub(super) fn add_differences(
        &mut self,
        frame: PlanFrame,
        state: &PointState,
        left: Option<i64>,
    ) {
        self.found = Found::default();
        self.found.told = Some(frame);
        self.compare_with(frame, state, left);
        let untold = self.found.count.saturating_sub(MOST_TOLD);
        if untold != 0 {
            self.report
                .add_words(format_args!("and {untold} more of this frame\n"));
        }
    }

    /// Whether something differs between what holds and a frame, or too little of the cost is left.
    pub(super) fn differs(&mut self, frame: PlanFrame, state: &PointState) -> bool {
        self.found = Found::default();
        self.compare_with(frame, state, Some(state.cost));
        self.found.count != 0
    }

    /// Finds that a part of the frame tells something else.
    fn add_difference<D: fmt::Display + Drop>(&mut self, part: FramePart, note: D) {
        let is_named = self.found.last == Some(part);
        self.found.last = Some(part);
        self.found.count = self.found.count.saturating_add(1);
        if let Some(frame) = self.found.told {
            if self.found.count <= MOST_TOLD {
                if !is_named {
                    self.add_frame_line(frame, part);
                }
                self.note(note);
            }
        }
    }

    /// Finds what differs between what holds and a frame, where there is one.
    fn compare_with(&mut self, frame: PlanFrame, state: &PointState, left: Option<i64>) {
        let PlanFrame { procedure, label } = frame;
        if let Some(label) = label {
            if let Some(frame) = self.plan.frame(procedure, label) {
                self.compare_frame(state, &frame, left);
            }
        } else if let Some(exit) = self.plan.exit(procedure) {
            self.compare_exit(state, &exit);
        }
    }

    /// Finds what differs from the frame of a label: where something does without regard to points, that
    /// alone.
    fn compare_frame(&mut self, state: &PointState, frame: &FrameRef<'_>, left: Option<i64>) {
        let symbols = live_values(state, frame);
        let wanted = PointState::at(&State::of(frame), &symbols);
        self.compare_head(state, &wanted);
        let (count, stated) = (state.operands.len(), wanted.operands.len());
        if count != stated {
            let note = format_args!("operands: {count} are there, the frame says {stated}");
            self.add_difference(FramePart::Head, note);
        }
        self.compare_trays(state, &wanted);
        self.add_unknown_slots(state, frame);
        if self.found.count != 0 {
            return;
        }
        self.compare_slots(state, frame);
        for n in 0..frame.guard_count() {
            self.compare_guard(n as u8, frame.guard(n).value_at(&symbols));
        }
        self.compare_operands(state, &wanted);
        self.compare_offsets(state, &wanted);
        match left {
            Some(is) if is < wanted.cost => {
                let wanted = wanted.cost;
                let note = format_args!("cost {is} is left, the frame wants {wanted}");
                self.add_difference(FramePart::Cost, note);
            }
            _ => {}
        }
    }

    /// Finds what differs from the exit frame where a procedure ends, in the same way.
    fn compare_exit(&mut self, state: &PointState, exit: &ExitRef<'_>) {
        let wanted = PointState::at_exit(exit, &exit_values(state, exit));
        self.compare_head(state, &wanted);
        self.compare_trays(state, &wanted);
        if self.found.count != 0 {
            return;
        }
        self.compare_results(exit, &wanted.symbols);
        for n in 0..exit.guard_count() {
            self.compare_guard(n, exit.guard(n).value_at(&wanted.symbols));
        }
        self.compare_offsets(state, &wanted);
    }

    /// A value that the frame says too.
    fn compare<N: PartialEq + fmt::Display + Drop, D: fmt::Display + Drop>(
        &mut self,
        part: FramePart,
        subject: D,
        is: N,
        wanted: N,
    ) {
        if is != wanted {
            let note = format_args!("{subject} is {is}, the frame says {wanted}");
            self.add_difference(part, note);
        }
    }

    /// The current tray and the grip.
    fn compare_head(&mut self, state: &PointState, wanted: &PointState) {
        self.compare(FramePart::Head, "the current tray", state.tray, wanted.tray);
        if state.grip != wanted.grip {
            let is = Group(self.plan.assembly, state.grip);
            let wanted = Group(self.plan.assembly, wanted.grip);
            let note = format_args!("gripped: {is}, the frame says {wanted}");
            self.add_difference(FramePart::Head, note);
        }
    }

    /// Of each piece whether it is apart, or else its tray.
    fn compare_trays(&mut self, state: &PointState, wanted: &PointState) {
        for piece in 0..MOST_PIECES as u8 {
            let is = Whereabouts(state.place(piece).tray());
            let there = Whereabouts(wanted.place(piece).tray());
            let name = self.plan.piece_name(piece);
            self.compare(FramePart::Piece(piece), name, is, there);
        }
    }

    /// The slots that are live in a frame, while nothing is known of them.
    fn add_unknown_slots(&mut self, state: &PointState, frame: &FrameRef<'_>) {
        for v in 0..SLOTS as u8 {
            if frame.slot(v).is_some() && state.slots[usize::from(v)].is_none() {
                self.add_difference(FramePart::Slot(v), format_args!("slot {v} is not known"));
            }
        }
    }

    /// The ranges of slots.
    fn compare_slots(&mut self, state: &PointState, frame: &FrameRef<'_>) {
        for v in 0..SLOTS as u8 {
            if let (Some(range), Some(is)) = (frame.slot(v), state.slots[usize::from(v)]) {
                self.compare_range(FramePart::Slot(v), format_args!("slot {v}"), is, range);
            }
        }
    }

    /// The ranges of results, whose symbols come after those of the parameters.
    fn compare_results(&mut self, exit: &ExitRef<'_>, symbols: &Point) {
        let parameters = usize::from(exit.parameters());
        for n in 0..exit.result_count() {
            if let Some(is) = symbols.get(parameters + usize::from(n)) {
                let (is, subject) = (i64::from(*is), format_args!("result {n}"));
                self.compare_range(FramePart::Result(n), subject, is, exit.result(n));
            }
        }
    }

    /// A range of a slot or of a result.
    fn compare_range<D: fmt::Display + Drop>(
        &mut self,
        part: FramePart,
        subject: D,
        is: i64,
        (low, high): (i16, i16),
    ) {
        if is < i64::from(low) || i64::from(high) < is {
            let note = format_args!("{subject} is {is}, the frame wants {low} to {high}");
            self.add_difference(part, note);
        }
    }

    /// A guard, which comes to this.
    fn compare_guard(&mut self, number: u8, is: i64) {
        if is < 0 {
            let note = format_args!("this guard is {is}, so below 0");
            self.add_difference(FramePart::Guard(number), note);
        }
    }

    /// The operands.
    fn compare_operands(&mut self, state: &PointState, wanted: &PointState) {
        let operands = state.operands.iter().zip(&wanted.operands);
        for (n, (is, wanted)) in (0..MOST_OPERANDS as u8).zip(operands) {
            self.compare(
                FramePart::Operand(n),
                format_args!("operand {n}"),
                *is,
                *wanted,
            );
        }
    }

    /// The offsets of the pieces, whose trays agree.
    fn compare_offsets(&mut self, state: &PointState, wanted: &PointState) {
        for piece in 0..MOST_PIECES as u8 {
            if let Placement::On { tray, position } = wanted.place(piece) {
                if let Some(is) = state.place(piece).position_in(tray) {
                    self.compare_offset(piece, is, position);
                }
            }
        }
    }

    /// The offset of a piece, coordinate by coordinate.
    fn compare_offset(&mut self, piece: u8, is: Offset, wanted: Offset) {
        let (part, name) = (FramePart::Piece(piece), self.plan.piece_name(piece));
        self.compare(part, format_args!("x of {name}"), is.x, wanted.x);
        self.compare(part, format_args!("y of {name}"), is.y, wanted.y);
        self.compare(part, format_args!("z of {name}"), is.z, wanted.z);
    }
}

/// What is in the slots that are live in a frame; 0 where it is not known.
fn live_values(state: &PointState, frame: &FrameRef<'_>) -> Point
    ensures near { AllNear result.items }
{
    let mut values: ArrayVec<i64, MOST_SYMBOLS> = ArrayVec::new();
    for v in 0..SLOTS as u8 {
        if frame.slot(v).is_some() {
            let _ = values.try_push(state.slots[usize::from(v)].unwrap_or(0));
        }
    }
    point_of(&values)
}

/// The values of an exit frame's symbols: the parameters, 0 where one is not known, and the topmost
/// operands as results.
fn exit_values(state: &PointState, exit: &ExitRef<'_>) -> ArrayVec<i64, MOST_SYMBOLS> {
    let mut values = ArrayVec::new();
    for v in 0..usize::from(exit.parameters()) {
        let parameter = state.slots.get(v).copied().flatten();
        let _ = values.try_push(parameter.unwrap_or(0));
    }
    let _ = values.try_extend_from_slice(&state.arguments(exit.result_count()));
    values
}
