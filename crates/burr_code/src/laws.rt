ghost use Rattle.std.specs.Prelude.{◌≡◌};
ghost use Rattle.burr_code.specs.declared.limits.TheConstants.{MOST_PIECES, TRAYS, SLOTS, MOST_OPERANDS, MOST_CODE, MOST_LABELS, MOST_PROCEDURES, MOST_BUDGET, MOST_PARAMETERS, MOST_GUARDS, MOST_RESULTS, MOST_STATE_GUARDS, MOST_NUMBER, MOST_OFFSET};
ghost use Rattle.burr_code.specs.Laws.{OneBegins, OneStandsAt, StandsAtItsBytes};

/// Bytes begin with one instruction at most, and one at most stands at a place of the code: so what
/// `fetch` finds is the only one.
pub fn instructions_are_unique()
    ensures begins { OneBegins }
    ensures stands { OneStandsAt }
{}

/// At the bytes of an instruction stands that one: so `fetch` finds what `encode` was given.
pub fn instructions_are_read_back()
    ensures { StandsAtItsBytes }
{}

/// The limits that instructions, plans and the bench share are these numbers.
pub fn the_limits_are_these()
    ensures pieces { MOST_PIECES ≡ 32 }
    ensures trays { TRAYS ≡ 32 }
    ensures slots { SLOTS ≡ 8 }
    ensures operands { MOST_OPERANDS ≡ 8 }
    ensures code { MOST_CODE ≡ 4096 }
    ensures labels { MOST_LABELS ≡ 256 }
    ensures procedures { MOST_PROCEDURES ≡ 16 }
    ensures budget { MOST_BUDGET ≡ 1000000 }
    ensures parameters { MOST_PARAMETERS ≡ 4 }
    ensures guards { MOST_GUARDS ≡ 4 }
    ensures results { MOST_RESULTS ≡ 2 }
    ensures state_guards { MOST_STATE_GUARDS ≡ 8 }
    ensures numbers { MOST_NUMBER ≡ 32767 }
    ensures offsets { MOST_OFFSET ≡ 256 }
{}
