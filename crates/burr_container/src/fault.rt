use thiserror::Error;

/// Why bytes are no container: the first field that fails, by the position of its first byte from
/// 0. Fields are judged in their order, each once all its bytes are there.
#[derive(Clone, Copy, Debug, PartialEq, Eq, Error)]
pub enum ContainerFault {
    /// The position is the number of bytes that there are.
    #[error("at {at}: the bytes end too early")]
    C1 { at: usize },
    #[error("at {at}: the bytes don't begin with `BPLN`")]
    C2 { at: usize },
    #[error("at {at}: the version isn't 1 or 2")]
    C3 { at: usize },
    #[error("at {at}: a number, or the name, is out of its range")]
    C4 { at: usize },
    #[error("at {at}: the first label isn't at 0, or the labels don't rise")]
    C5 { at: usize },
    #[error("at {at}: bytes follow the last procedure")]
    C6 { at: usize },
}

impl ContainerFault {
    ghost use Rattle.std.specs.Prelude.{◌≡◌};
    ghost use Rattle.burr_container.specs.Rules.FaultNames.{fault_code, fault_position};

    /// What the fault is called, as `C4`, and its position.
    pub fn code_and_position(self) -> (&'static str, usize)
        ensures code { result.0.now ≡ fault_code self }
        ensures position { result.1 ≡ fault_position self }
    {
        match self {
            ContainerFault::C1 { at } => ("C1", at),
            ContainerFault::C2 { at } => ("C2", at),
            ContainerFault::C3 { at } => ("C3", at),
            ContainerFault::C4 { at } => ("C4", at),
            ContainerFault::C5 { at } => ("C5", at),
            ContainerFault::C6 { at } => ("C6", at),
        }
    }
}
