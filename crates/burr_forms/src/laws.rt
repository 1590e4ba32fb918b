ghost use Rattle.std.specs.Prelude.{◌≡◌, pos};
ghost use Rattle.burr_forms.specs.declared.limits.TheConstants.{MOST_FORM_NUMBER, MOST_POINTS, MOST_SYMBOL_VALUE};
ghost use Rattle.burr_forms.specs.Laws.PointLaws.{OneListOfPoints, SizeCountsPoints, ThePointsAreGiven};

/// The points of a box under guards are listed each once, rising, the first symbol slowest, and
/// no other; and there is one such list at most. Without guards it is as long as the box's size
/// says.
pub fn the_points_are_given()
    ensures given { ThePointsAreGiven }
    ensures one { OneListOfPoints }
    ensures size { SizeCountsPoints }
{}

/// A number of a form is at most 2^40 either way, a value of a symbol at most 32,767 either way,
/// and a box of the symbols of a state has at most 4,096 points.
pub fn the_limits_are_these()
    ensures form_numbers { MOST_FORM_NUMBER ≡ pos 1099511627776 }
    ensures symbol_values { MOST_SYMBOL_VALUE ≡ 32767 }
    ensures points { MOST_POINTS ≡ 4096 }
{}
