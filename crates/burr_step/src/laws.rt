ghost use Rattle.burr_step.specs.Laws.StepperLaws.{OneLead, OneOutcome, TakenIsThere, CommandsAreThere};
ghost use Rattle.burr_step.specs.Laws.StepperLaws.{BackNone, BackUndoes, BackIsRefused, SomeBack};
ghost use Rattle.burr_step.specs.Laws.StepperLaws.{GoingIsRefused, AnswerIsRefused};
ghost use Rattle.burr_step.specs.Laws.StepperLaws.{LeadsSafely, SomeOutcome, StepsAreCounted};
ghost use Rattle.burr_step.specs.Views.UndoRing.{UndoingIsBack, RecordIsKept, LastAreKept};
ghost use Rattle.burr_step.specs.Rules.StepTexts.{LinesAreShort, OneLine};
ghost use Rattle.burr_step.specs.Rules.DriveTexts.{DriveLinesAreShort, OneDriveLine};
ghost use Rattle.burr_step.specs.Laws.MoveLaws.{DriveTellsItsRun, MovesAreJoined, OneMove, OneWay};
ghost use Rattle.burr_step.specs.Laws.MoveLaws.{MovesAreNumbered, MovesAreTheRuns, HaltIsTheClose, MoreAnswersGoOn};

use burr_verify::a_fitting_plan_is_from_a_container;

/// Commands lead to one state, that of the steps and answers that they fix.
pub fn commands_lead_to_one_state()
    ensures one { OneLead }
    ensures outcome { OneOutcome }
    ensures taken { TakenIsThere }
    ensures commanded { CommandsAreThere }
{}

/// Going back forgets steps and their answers, and nothing else.
pub fn going_back_forgets_steps()
    ensures none { BackNone }
    ensures undoes { BackUndoes }
    ensures refused { BackIsRefused }
    ensures some { SomeBack }
{}

/// When commands are refused.
pub fn commands_are_refused_so()
    ensures going { GoingIsRefused }
    ensures answer { AnswerIsRefused }
{}

/// On an accepted plan each command comes to something, and leaves a safe bench.
pub fn commands_come_to_something()
    ensures safe { LeadsSafely }
    ensures some { SomeOutcome }
    ensures counted { StepsAreCounted }
{
    a_fitting_plan_is_from_a_container();
}

/// A line is of one command at most, and no command's line is long.
pub fn lines_of_commands_are_short()
    ensures short { LinesAreShort }
    ensures one { OneLine }
{}

/// A line is of one command of a drive at most, and no command's line is long.
pub fn drive_lines_are_short()
    ensures short { DriveLinesAreShort }
    ensures one { OneDriveLine }
{}

/// Undoing kept records is going back, and records stay.
pub fn undoing_is_going_back()
    ensures back { UndoingIsBack }
    ensures kept { RecordIsKept }
    ensures last { LastAreKept }
{}

/// Whole moves are the motions of a run as a sheet joins them, and are the same however they are asked
/// for.
pub fn moves_are_joined_motions()
    ensures joined { MovesAreJoined }
    ensures one { OneMove }
    ensures way { OneWay }
{}

/// A run of an accepted plan that is led by moves and answers is its run with these answers: it makes
/// their motions, meets no trap, stays within the budget, and where it halts it waits for an answer or
/// each piece is apart. The moves are numbered from 1.
pub fn moves_are_those_of_the_run()
    ensures numbered { MovesAreNumbered }
    ensures calls { MovesAreTheRuns }
    ensures closes { HaltIsTheClose }
{
    a_fitting_plan_is_from_a_container();
}

/// However a drive is called from its begin on, it makes the moves of the run with the answers that it
/// took, and tells of them, in their order, each once.
pub fn a_drive_tells_of_its_run()
    ensures { DriveTellsItsRun }
{}

/// A run with more answers begins with the moves of the run with fewer.
pub fn moves_go_on_with_more_answers()
    ensures { MoreAnswersGoOn }
{}
