ghost use Rattle.std.specs.Prelude.{◌≡◌, ◌≤◌};
ghost use Rattle.burr_code.specs.declared.limits.TheConstants.{MOST_PARAMETERS};
ghost use Rattle.burr_container.specs.Rules.Plans.{exit_symbols};

use burr_code::limits::SLOTS;

/// What a procedure takes and gives, and the version of its plan: what its exit frame may say.
#[derive(Clone, Copy)]
pub struct Signature {
    pub version: u16,
    /// How many parameters it has: 0 to 4.
    pub parameters: u8,
    /// How many results it has: 0 to 2, in version 1 none.
    pub results: u8,
    ghost few_parameters: { parameters ≤ MOST_PARAMETERS },
    ghost few_results: { results ≤ 2 },
}

impl Signature {
    /// Which symbols the forms of the exit frame may have: the parameters, and then the results.
    pub fn symbols(self) -> [bool; SLOTS]
        ensures { result ≡ exit_symbols self.parameters self.results }
    {
        let count = usize::from(self.parameters) + usize::from(self.results);
        let mut symbols = [false; SLOTS];
        symbols[..count].fill(true);
        symbols
    }
}
