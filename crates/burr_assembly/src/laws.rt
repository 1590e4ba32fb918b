ghost use Rattle.burr_assembly.specs.Laws.Texts.{OneAssembly, FaultOrAssembly, NoFault, OneFault, ReadsBack, WritesBack, PieceLineIsTold, PieceLineIsNamed, SharingPiecesAreNamed, DrawnInBox, HomesAreSmall};

/// No text is that of two assemblies.
pub fn a_text_has_one_assembly()
    ensures { OneAssembly }
{}

/// A text has a fault exactly where it is no assembly's, and then only one.
pub fn a_text_has_a_fault_or_an_assembly()
    ensures some { FaultOrAssembly }
    ensures not_both { NoFault }
    ensures one { OneFault }
{}

/// The text that is written for an assembly is one that is read as this assembly, and the assembly
/// that a text is read as is written as this text.
pub fn texts_and_assemblies_give_each_other_back()
    ensures reads { ReadsBack }
    ensures writes { WritesBack }
{}

/// The names that are found in a text are those in its lines of a piece's form, and where the
/// text's first fault is a piece that shares a cell with an earlier one, they are those of the two.
pub fn a_piece_is_named_in_its_text()
    ensures told { PieceLineIsTold }
    ensures named { PieceLineIsNamed }
    ensures both { SharingPiecesAreNamed }
{}

/// Each cell of a drawing lies in its box.
pub fn a_drawing_lies_in_its_box()
    ensures { DrawnInBox }
{}

/// No two cells of a piece at home lie more than 15 apart, a coordinate.
pub fn a_piece_is_no_larger_than_its_drawing()
    ensures { HomesAreSmall }
{}
