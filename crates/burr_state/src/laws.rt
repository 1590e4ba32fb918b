ghost use Rattle.burr_state.specs.Rules.Undo.{RecordsGoBack, RecordsTell};
ghost use Rattle.burr_state.specs.Laws.AsideLaws.{GroupGoesAside};
ghost use Rattle.burr_state.specs.Laws.MotionLaws.{TraysAreFew, MotionsAreOfPieces, MotionsAreWithinBudget};
ghost use Rattle.burr_state.specs.Laws.PartLaws.{PartsAreCounted};
ghost use Rattle.burr_state.specs.Laws.SpaceLaws.{GripStays, NoOverlapStays, NoneLoneStays, HomesAreDisjoint, GripIsHere, PiecesNeverOverlap, NoPieceIsLone};
ghost use Rattle.burr_state.specs.Laws.StepLaws.{SomeExecution, OneExecution, CallIsOneStep};
ghost use Rattle.burr_state.specs.Laws.RunLaws.{OneNext, SomeNext, OneCall, SomeCall, OneResult, SomeResult, RunIsCalls, MoreAnswersGoOn};

/// Each instruction, carried out at any state, has one effect.
pub fn an_instruction_has_one_effect()
    ensures some { SomeExecution }
    ensures one { OneExecution }
{}

/// One thing stands next at a state of the bench, and a call of it tells one thing and leaves one
/// state.
pub fn a_step_has_one_result()
    ensures some { SomeNext }
    ensures next { OneNext }
    ensures some_call { SomeCall }
    ensures call { OneCall }
{}

/// A call that tells of a step has made one; one that tells of a trap changes the mode alone, and
/// any other changes nothing.
pub fn a_call_leaves_what_it_tells()
    ensures { CallIsOneStep }
{}

/// A run has a result, and it is the only one.
pub fn a_run_has_one_result()
    ensures some { SomeResult }
    ensures one { OneResult }
{}

/// A run with more answers begins with the motions of the run with fewer.
pub fn a_run_with_more_answers_goes_on()
    ensures { MoreAnswersGoOn }
{}

/// A run is a chain of calls of the bench, up to where the last of them closes it.
pub fn a_run_is_a_chain_of_calls()
    ensures { RunIsCalls }
{}

/// What becomes of each piece where a group goes aside, whatever a position is: a piece that is
/// alone in a tray then is apart, and each other piece is where it was, or in the other tray.
pub fn going_aside_parts_lone_pieces<Position>()
    ensures { GroupGoesAside Position }
{}

/// The pieces are in as many parts as there are trays in play and pieces apart, whatever a position
/// is.
pub fn parts_are_trays_and_pieces_apart<Position>()
    ensures { PartsAreCounted Position }
{}

/// Where the grip lies in the current tray, a step keeps it there, lets no two pieces of a tray
/// overlap that did not, and leaves no piece alone in a tray if none was.
pub fn a_step_keeps_pieces_apart()
    ensures grip { GripStays }
    ensures no_overlap { NoOverlapStays }
    ensures none_lone { NoneLoneStays }
{}

/// Wherever a run of an assembly comes to, the grip lies in the current tray, no two pieces of a
/// tray overlap, and no piece is alone in a tray.
pub fn pieces_never_overlap()
    ensures homes { HomesAreDisjoint }
    ensures grip { GripIsHere }
    ensures no_overlap { PiecesNeverOverlap }
    ensures none_lone { NoPieceIsLone }
{}

/// Wherever a run comes to, the current tray and that of each piece that is not apart are below 32,
/// and a motion that a call then tells of is of some of the pieces, one at least, in such a tray.
pub fn motions_are_of_pieces_in_trays()
    ensures trays { TraysAreFew }
    ensures motions { MotionsAreOfPieces }
{}

/// A run makes a motion a step at most, and no more steps than its budget.
pub fn motions_are_within_the_budget()
    ensures { MotionsAreWithinBudget }
{}

/// A step's record gives back the state before it, and two states with one record that come to one
/// state are the same.
pub fn records_go_back()
    ensures back { RecordsGoBack }
    ensures tell { RecordsTell }
{}
