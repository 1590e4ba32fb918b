//! The exit statuses of the program.

ghost use Rattle.std.specs.Prelude.{◌≡◌};
ghost use Rattle.burr_judge.specs.Statuses.{code_of};

use burr_runs::Outcome;

/// How a command ended, as its exit status reports it.
#[derive(Clone, Copy, Debug, PartialEq, Eq)]
pub enum Status {
    /// All pieces are apart, a command has done what it is for, or help or the version was printed.
    Done,
    /// An input is refused, or a run trapped or was stopped.
    Refused,
    /// The command line has a fault.
    CommandLine,
    /// A file or a stream failed, or has too many bytes.
    Failed,
    /// Out of memory.
    Memory,
    /// A run waits for an answer.
    Waiting,
}

impl Status {
    /// Returns the exit status, 0 to 5.
    pub fn code(self) -> u8
        ensures { result ≡ code_of self }
    {
        match self {
            Status::Done => 0,
            Status::Refused => 1,
            Status::CommandLine => 2,
            Status::Failed => 3,
            Status::Memory => 4,
            Status::Waiting => 5,
        }
    }
}

impl From<Outcome> for Status {
    ghost use Rattle.std.specs.Prelude.{◌≡◌};
    ghost use Rattle.burr_judge.specs.Statuses.{status_of};

    ghost from_gives = { λ outcome status. status ≡ status_of outcome };

    fn from(outcome: Outcome) -> Status {
        match outcome {
            Outcome::Apart => Status::Done,
            Outcome::Refused | Outcome::Trapped | Outcome::Stopped => Status::Refused,
            Outcome::Waiting => Status::Waiting,
        }
    }
}
