ghost use Rattle.std.specs.Prelude.{◌≡◌, Some, option_map};
ghost use Rattle.burr_frames.specs.Rules.RuleNumbers.{rule_number, rule_name};
ghost use Rattle.burr_frames.specs.Views.Breaks.{broken_of, plain_break, missed_break};

use burr_forms::{FormTooLarge, Point};
use std::fmt;
use thiserror::Error;

/// A rule that a plan has to keep. Each variant says what is found where the rule is broken.
#[derive(Clone, Copy, Debug, PartialEq, Eq)]
pub enum Rule {
    /// V1: the plan is for another assembly: its name or its number of pieces differs.
    OtherAssembly = 1,
    /// V2: no instruction stands at this position.
    BadCode = 2,
    /// V3: a label stands inside an instruction.
    BadLabel = 3,
    /// V4: a frame is missing: nothing goes on to here, and no label stands here.
    MissingFrame = 4,
    /// V5: the procedure goes on after its last instruction.
    UnendedCode = 5,
    /// V6: the instruction takes more operands than there are.
    MissingOperand = 6,
    /// V7: the stack is full, and there would be one operand more.
    StackFull = 7,
    /// V8: nothing is known of the slot's value.
    EmptySlot = 8,
    /// V9: the slot that would be written is a parameter.
    ParamWritten = 9,
    /// V10: the procedure has no such label.
    BadJump = 10,
    /// V11: the counter may be below zero.
    BadCount = 11,
    /// V12: a number may be out of its range.
    NumberRange = 12,
    /// V13: a piece that would be gripped is not in the current tray.
    GripOff = 13,
    /// V14: the grip is empty, or `aside` would take the whole tray.
    BadGroup = 14,
    /// V15: two pieces of the tray may collide.
    Collision = 15,
    /// V16: the gripped pieces may not be free along the direction.
    NotFree = 16,
    /// V17: the tray that `aside` names is in use.
    TrayInUse = 17,
    /// V18: a piece may leave the bench.
    OffBench = 18,
    /// V19: a call of no procedure, or of one that does not come later than its caller.
    BadCall = 19,
    /// V20: the callee's entry frame is not met.
    EntryMissed = 20,
    /// V21: the label's frame is not met.
    FrameMissed = 21,
    /// V22: the exit frame is not met, or `ret` or `halt` stands in the wrong procedure.
    ExitMissed = 22,
    /// V23: `halt` with a piece that is not apart.
    NotApart = 23,
    /// V24: the cost that is left is below what is needed.
    CostTooLow = 24,
    /// V25: there are too many symbols, guards or points.
    StateTooLarge = 25,
    /// V26: a form's numbers are too large.
    FormTooLarge = 26,
    /// V27: a frame is malformed, or the start does not meet main's.
    BadFrame = 27,
    /// V28: the budget is below main's cost.
    BudgetTooLow = 28,
}

impl Rule {
    /// The rule's number, 1 to 28.
    pub fn number(self) -> u8
        ensures { result ≡ rule_number self }
    {
        self as u8
    }
}

/// Writes `V` and the rule's number.
impl fmt::Display for Rule {
    ghost output = { λ rule. Some (rule_name rule) };

    fn fmt<W: fmt::Write>(&self, f: &mut fmt::Formatter<W>) -> fmt::Result {
        let number = self.number();
        write!(f, "V{number}")
    }
}

/// A rule that does not hold at an instruction, and where.
#[derive(Debug, PartialEq, Eq, Drop, Error)]
#[error("{rule} is broken")]
pub struct Break {
    /// The first of the instruction's checks that fails.
    pub rule: Rule,
    /// The first pair of pieces for which it fails, the gripped piece first, where the rule is
    /// about pairs.
    pub pieces: Option<(u8, u8)>,
    /// The first of the state's points at which it fails, where the rule is judged at points.
    pub point: Option<Point>,
}

impl Break {
    /// A rule that is broken without regard to points.
    pub(crate) fn plain(rule: Rule) -> Break
        ensures { broken_of result ≡ plain_break rule }
    {
        Break::at(rule, None)
    }

    /// A rule that is broken at a point, or without regard to points.
    pub(crate) fn at(rule: Rule, point: Option<Point>) -> Break
        ensures { broken_of result ≡ missed_break rule (option_map (λ point. point.items) point) }
    {
        Break {
            rule,
            pieces: None,
            point,
        }
    }
}

/// Forms that would be too large break a rule of their own.
impl From<FormTooLarge> for Break {
    ghost use Rattle.std.specs.Prelude.{◌≡◌};
    ghost use Rattle.burr_frames.specs.Views.Breaks.{broken_of, plain_break};
    ghost use Rattle.burr_frames.specs.declared.rule.Rule.TheVariants as rules;

    ghost from_gives = { λ _ b. broken_of b ≡ plain_break rules.FormTooLarge };

    fn from(_: FormTooLarge) -> Self {
        Break::plain(Rule::FormTooLarge)
    }
}
