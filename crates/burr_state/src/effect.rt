ghost use Rattle.std.specs.Prelude.{◌≡◌};
ghost use Rattle.burr_state.specs.Rules.TrapNames.{trap_number, trap_name};

use burr_voxels::Direction;
use thiserror::Error;

/// What an instruction came to.
#[derive(Clone, Copy, Debug, PartialEq, Eq)]
pub enum Effect {
    /// A step was made, with its motion, if it made one.
    Goes(Option<Motion>),
    /// The instruction asks for a number from the first to the second.
    Asks(i32, i32),
}

/// A motion of a group of pieces: one unit step, or the way out of the tray.
#[derive(Clone, Copy, Debug, PartialEq, Eq)]
pub struct Motion {
    /// The pieces that move: bit p is piece p.
    pub group: u32,
    /// The current tray, 0 to 31.
    pub tray: u8,
    pub dir: Direction,
    /// Whether the group is taken out of its tray.
    pub out: bool,
}

/// What a call of the bench came to.
#[derive(Clone, Copy, Debug, PartialEq, Eq)]
pub enum Progress {
    /// A step was made, with its motion, if it made one.
    Went(Option<Motion>),
    /// The next instruction asks for a number from the first to the second; nothing changed.
    Asks(i32, i32),
    /// The answer fits no question, or nothing is asked; nothing changed.
    Again,
    /// The run has ended already; nothing changed.
    Ended,
}

/// How a run closes.
#[derive(Clone, Copy, Debug, PartialEq, Eq)]
pub enum Closing {
    /// All pieces are apart.
    Apart,
    /// The run waits for an answer from the first number to the second, and none is left.
    Waiting(i32, i32),
    /// A trap, with the procedure and the place of its instruction.
    Trapped(Trap, u8, u16),
    /// The budget is used up.
    Stopped,
}

/// Whether a run goes on, and how not.
#[derive(Clone, Copy, Debug, PartialEq, Eq)]
pub enum Mode {
    Running,
    Ended,
    Trapped(Trap),
}

/// Why an instruction could not be carried out. It changed nothing then.
#[derive(Clone, Copy, Debug, PartialEq, Eq, Error)]
pub enum Trap {
    #[error("after the unit step two pieces of the tray would overlap")]
    Collision = 1,
    #[error("a piece of the group is not in the current tray, is apart, or isn't there")]
    GripOff = 2,
    #[error("the grip isn't free along the direction of the way out")]
    NotFree = 3,
    #[error("the grip is empty, or for a way out the whole tray")]
    BadGroup = 4,
    #[error("the tray that the group would go to has pieces")]
    TrayInUse = 5,
    #[error("there are fewer operands than the instruction takes")]
    MissingOperand = 6,
    #[error("the operands would be more than eight")]
    StackFull = 7,
    #[error("the slot is empty")]
    EmptySlot = 8,
    #[error("there is no such label")]
    BadJump = 9,
    #[error("no instruction stands there")]
    BadCode = 10,
    #[error("there is no such procedure, or its number is not above that of the running one")]
    BadCall = 11,
    #[error("the count of a loop is below 0")]
    BadCount = 12,
    #[error("the result lies outside -32,767 to 32,767")]
    NumberRange = 13,
    #[error("after the unit step a piece would lie outside -256 to 256 a coordinate")]
    OffBench = 14,
    #[error("the run would end while a piece is not apart")]
    NotApart = 15,
    #[error("`halt` stands outside main, or `ret` in it")]
    Misplaced = 16,
    #[error("the slot is a parameter of the procedure")]
    ParamWritten = 17,
}

impl Trap {
    /// The trap's number, 1 to 17.
    pub fn number(self) -> u8
        ensures { result ≡ trap_number self }
    {
        self as u8
    }

    /// The trap's name, as sheets print it.
    pub fn name(self) -> &'static str
        ensures { result.now ≡ trap_name self }
    {
        match self {
            Trap::Collision => "Collision",
            Trap::GripOff => "GripOff",
            Trap::NotFree => "NotFree",
            Trap::BadGroup => "BadGroup",
            Trap::TrayInUse => "TrayInUse",
            Trap::MissingOperand => "MissingOperand",
            Trap::StackFull => "StackFull",
            Trap::EmptySlot => "EmptySlot",
            Trap::BadJump => "BadJump",
            Trap::BadCode => "BadCode",
            Trap::BadCall => "BadCall",
            Trap::BadCount => "BadCount",
            Trap::NumberRange => "NumberRange",
            Trap::OffBench => "OffBench",
            Trap::NotApart => "NotApart",
            Trap::Misplaced => "Misplaced",
            Trap::ParamWritten => "ParamWritten",
        }
    }
}
