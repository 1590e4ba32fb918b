ghost use Rattle.burr_explain.specs.Asked.{EachLineHasOneKey};

/// Each line has one key and no other: one thing that it asks for.
pub fn each_line_has_one_key()
    ensures { EachLineHasOneKey }
{}
