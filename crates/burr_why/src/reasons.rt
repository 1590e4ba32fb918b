//! What is said of each rule that refuses a plan.

mod differences;
mod frames;
mod numbers;
mod site;
mod space;

use burr_code::Instr;
use burr_code::limits::MOST_OPERANDS;
use burr_forms::limits::MOST_FORM_NUMBER;
use burr_frames::Rule;
use burr_lines::{
    FramePart, PlanFrame, PlanLines, PlanPart, PlanText, Report, Shown, numbered_line,
};
use burr_verify::Refusal;
use differences::Found;
use site::Site;
use std::alloc::{AllocError, Global};
use std::fmt;

/// What is said of a number of a form beyond the most, which stands here with commas.
const LARGE_FORM_NUMBER: &str = "a form here has a number beyond 1,099,511,627,776";

/// A change of the limit is to be followed by one of these words.
const _: () = prove!(MOST_FORM_NUMBER == 1_099_511_627_776);

/// Says why a plan is refused.
#[derive(Drop)]
pub struct Reasons<'a, 'c> {
    plan: PlanText<'a, 'c>,
    lines: PlanLines<'a>,
    report: Report,
    /// What differs from the frame that was compared last.
    found: Found,
}

impl Reasons<'_, '_> {
    /// Says why this refusal was made.
    fn add(&mut self, refusal: &Refusal) {
        match refusal.rule {
            Rule::OtherAssembly => {
                self.add_part(PlanPart::Plan);
                let name = self.plan.assembly.name();
                let pieces = self.plan.assembly.piece_count();
                self.note(format_args!("the assembly is {name} and has {pieces} pieces"));
            }
            Rule::BudgetTooLow => {
                self.add_part(PlanPart::Plan);
                let budget = self.plan.container.header().budget;
                self.note(format_args!("the budget is {budget}, so below what main costs"));
                self.add_frame_line(PlanFrame::of_label(0, 0), FramePart::Cost);
            }
            Rule::BadFrame => self.add_malformed_frame(refusal),
            Rule::StateTooLarge => self.add_large_state(refusal),
            _ => self.add_at_site(refusal),
        }
    }

    /// Says why a place of the code breaks a rule.
    #[inline(never)]
    fn add_at_site(&mut self, refusal: &Refusal) {
        let site = Site::of(&self.plan, refusal);
        let (procedure, pc) = (site.procedure, usize::from(site.pc));
        self.add_part(PlanPart::Code { procedure, pc });
        if let Some(label) = site.label {
            let name = Shown(self.lines.name_of(PlanPart::Procedure(procedure)));
            let label = Shown(self.lines.name_of(PlanPart::Label { procedure, label }));
            self.note(format_args!("in {name}, after label {label}"));
        }
        if let Some(fault) = fault_of_rule(refusal.rule) {
            return self.note(fault);
        }
        if let Some(instruction) = self.plan.instruction_at(procedure, pc) {
            self.add_broken_rule(refusal, &instruction, &site);
        }
    }

    /// Says why an instruction breaks a rule.
    #[inline(never)]
    fn add_broken_rule(&mut self, refusal: &Refusal, instruction: &Instr<'_>, site: &Site) {
        match (refusal.rule, instruction) {
            (Rule::BadLabel, _) => self.add_label_inside(instruction, site),
            (Rule::MissingOperand, _) => self.add_missing_operand(instruction, site),
            (Rule::StackFull, _) => {
                let count = site.before.operands.len();
                self.note(format_args!(
                    "operands: {count} are there, with room for {MOST_OPERANDS}"
                ));
            }
            (Rule::EmptySlot, Instr::Load(slot) | Instr::Down(slot, _)) => {
                self.add_unknown_slot(*slot, site)
            }
            (Rule::ParamWritten, Instr::Store(slot) | Instr::Down(slot, _)) => {
                let slot = *slot;
                let name = Shown(self.lines.name_of(PlanPart::Procedure(site.procedure)));
                self.note(format_args!("slot {slot} is a parameter of {name}"));
            }
            (Rule::BadCount, Instr::Down(slot, _)) => self.add_negative_counter(*slot, site),
            (Rule::NumberRange, _) => self.add_large_number(instruction, site),
            (Rule::GripOff, Instr::Grip(set)) => self.add_pieces_elsewhere(*set, site),
            (Rule::BadGroup, _) => self.add_wrong_grip(site),
            (Rule::Collision, Instr::Step(way)) => self.add_meeting(refusal, *way, site),
            (Rule::NotFree, Instr::Aside(way, _)) => self.add_meeting(refusal, *way, site),
            (Rule::TrayInUse, Instr::Aside(_, tray)) => self.add_full_tray(*tray, site),
            (Rule::OffBench, Instr::Step(way)) => self.add_far_pieces(Some(*way), site),
            (Rule::OffBench, _) => self.add_far_pieces(None, site),
            (Rule::BadCall, Instr::Call(callee)) => self.add_bad_callee(usize::from(*callee), site),
            (Rule::EntryMissed, Instr::Call(callee)) => {
                self.add_missed_entry(usize::from(*callee), site)
            }
            (Rule::FrameMissed, _) => self.add_missed_label(instruction, site),
            (Rule::ExitMissed, _) => self.add_missed_exit(instruction, site),
            (Rule::NotApart, _) => self.add_pieces_together(site),
            (Rule::CostTooLow, _) => self.add_want_of_cost(instruction, site),
            (Rule::StateTooLarge, _) => self.add_too_many(instruction, site),
            _ => {}
        }
    }

    /// Notes something of the line that was named last.
    fn note<D: fmt::Display + Drop>(&mut self, note: D) {
        self.report.add_note(note);
    }

    /// Names the line of a part of the plan, where it has one.
    fn add_part(&mut self, part: PlanPart) {
        if let Some(line) = self.lines.line_of(part) {
            self.report.add_line(self.plan.file, &line);
        }
    }

    /// Names the line of a part of a frame; where the frame has none, that it begins with.
    fn add_frame_line(&mut self, frame: PlanFrame, part: FramePart) {
        let head = self.lines.line_in(frame, FramePart::Head);
        if let Some(line) = self.lines.line_in(frame, part).or(head) {
            self.report.add_line(self.plan.file, &line);
        }
    }
}

/// What is said of a rule that is broken in the same way everywhere.
fn fault_of_rule(rule: Rule) -> Option<&'static str> {
    match rule {
        Rule::BadCode => Some("no instruction begins with these bytes"),
        Rule::MissingFrame => Some(
            "nothing goes on to here: a label with its frame has to stand before, or nothing",
        ),
        Rule::UnendedCode => Some("the code ends here, and this instruction goes on after it"),
        Rule::BadJump => Some("the procedure has no label of this number"),
        Rule::FormTooLarge => Some(LARGE_FORM_NUMBER),
        Rule::OtherAssembly | Rule::BudgetTooLow | Rule::BadFrame | Rule::StateTooLarge => None,
        Rule::BadLabel | Rule::BadCall | Rule::EntryMissed | Rule::FrameMissed => None,
        Rule::MissingOperand | Rule::StackFull | Rule::EmptySlot | Rule::ParamWritten => None,
        Rule::BadCount | Rule::NumberRange | Rule::CostTooLow | Rule::ExitMissed => None,
        Rule::GripOff | Rule::BadGroup | Rule::Collision | Rule::NotFree => None,
        Rule::TrayInUse | Rule::OffBench | Rule::NotApart => None,
    }
}

/// Says why a plan is refused: the lines of its text that are at fault, each as
/// `cup.plan:38: jump L`, and below each what was compared there.
pub fn reason_of_refusal(
    alloc: Global,
    plan: PlanText<'_, '_>,
    refusal: &Refusal,
) -> Result<String, AllocError> {
    let mut reasons = Reasons {
        plan,
        lines: PlanLines::of(alloc, plan.text)?,
        report: Report::new(alloc),
        found: Found::default(),
    };
    reasons.add(refusal);
    reasons.report.into_text()
}

/// Names a faulty line of a text, as `cup.plan:38: jump`; or says that the text ends before it.
pub fn reason_of_line(
    alloc: Global,
    file: &str,
    text: &[u8],
    number: usize,
) -> Result<String, AllocError> {
    let mut report = Report::new(alloc);
    match numbered_line(text, number) {
        Some(line) => report.add_line(file, &line),
        None => {
            report.add_words(format_args!("{file}:{number}: the text ends before this line\n"));
        }
    }
    report.into_text()
}
