ghost use Rattle.burr_voxels.specs.SpaceLaws.{OverlappingIsNotFree};

/// A group that overlaps others at a shift along a direction isn't free of them.
pub fn a_group_that_overlaps_is_not_free()
    ensures { OverlappingIsNotFree }
{}
