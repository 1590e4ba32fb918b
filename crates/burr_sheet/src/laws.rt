ghost use Rattle.burr_assembly.specs.Rules.Text.{IsAssembly};
ghost use Rattle.burr_sheet.specs.Laws.SheetLaws.{EndsInClosing, ClosesInOneLine, ClosesOnce, LinesAreLongest, LinesOfRunsAreOfMotions, OneListOfMotions};

use burr_assembly::Assembly;

/// A sheet ends in one line that tells how its run closed.
pub fn a_sheet_closes_once()
    ensures ends { EndsInClosing }
    ensures line { ClosesInOneLine }
    ensures once { ClosesOnce }
{}

/// The lines of motions give these back in their order, and none could be one with the line after
/// it.
pub fn lines_are_longest()
    ensures { LinesAreLongest }
{}

/// A text is the lines of one list of motions of an assembly's pieces at most.
pub fn lines_are_of_one_list_of_motions()
    ensures { OneListOfMotions }
{}

/// The move lines of each run of an assembly's pieces, whatever is answered, are lines that `expand`
/// reads, and give back its motions, where the budget is at most 1,000,000.
pub fn move_lines_of_runs_are_expanded()
    ensures { LinesOfRunsAreOfMotions }
{}

/// What a reference to an assembly holds is one.
pub(crate) fn a_reference_holds_an_assembly(assembly: &Assembly)
    ensures { IsAssembly assembly.now }
{
    let _ = assembly.piece_count();
}
