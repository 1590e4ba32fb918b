ghost use Rattle.burr_from_sheet.specs.SheetPlans.{MoveLinesAreBeforeLevels};

/// The move lines of a sheet are its lines before the first one that begins `levels `.
pub fn move_lines_stand_before_levels()
    ensures { MoveLinesAreBeforeLevels }
{}
