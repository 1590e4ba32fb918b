ghost use Rattle.std.specs.Prelude.{◌≡◌, ◌≤◌};
ghost use Rattle.burr_container.specs.Rules.Fitting.{most_results as most_of_results, most_exit_guards as most_of_exit_guards};

use burr_code::limits::MOST_GUARDS;

/// The version of the format and the number of pieces, by which the parts of a plan are laid out.
#[derive(Clone, Copy)]
pub struct Layout {
    /// The version of the format.
    pub version: u16,
    /// How many pieces the plan moves.
    pub pieces: u8,
    ghost few: { pieces ≤ 32 },
}

impl Layout {
    /// How many results a procedure may have; main has none.
    pub fn most_results(self, main: bool) -> u8
        ensures most { result ≡ most_of_results self.version main }
        ensures few { result ≤ 2 }
    {
        if main || self.version != 2 { 0 } else { 2 }
    }

    /// How many guards an exit frame may have.
    pub fn most_exit_guards(self) -> usize
        ensures { result ≡ most_of_exit_guards self.version }
    {
        if self.version == 2 { MOST_GUARDS } else { 0 }
    }
}
