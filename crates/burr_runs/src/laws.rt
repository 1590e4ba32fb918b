ghost use Rattle.burr_runs.specs.Rules.Answers.{OneAnswers, NoFaultyLine, OneFaultyLine};
ghost use Rattle.burr_runs.specs.Laws.OutputLaws.{OneInput, SomeOutput, OneOutput};
ghost use Rattle.burr_runs.specs.Laws.UpgradeLaws.{JudgedAsBefore, FramedAsBefore, RunsAsBefore, SheetAsBefore};

/// An input is a text and code in one way at most; something is written for it, and one thing
/// alone.
pub fn an_input_has_one_output()
    ensures input { OneInput }
    ensures some { SomeOutput }
    ensures output { OneOutput }
{}

/// A text is that of one list of answers at most, or has one first faulty line, and never both.
pub fn answers_are_read_in_one_way()
    ensures answers { OneAnswers }
    ensures either { NoFaultyLine }
    ensures line { OneFaultyLine }
{}

/// A plan in version 2 is judged as in version 1, whatever the assembly.
pub fn an_upgraded_plan_is_judged_as_before()
    ensures judged { JudgedAsBefore }
    ensures framed { FramedAsBefore }
{}

/// A plan in version 2 runs as in version 1, whatever the assembly and the answers, and its sheet is
/// the same.
pub fn an_upgraded_plan_runs_as_before()
    ensures runs { RunsAsBefore }
    ensures sheet { SheetAsBefore }
{}
