ghost use Rattle.burr_asm.specs.Rules.Assembling.{ListingAssembles};

use burr_plantext::{a_listing_stands_for_its_plan, a_text_has_one_plan};

/// The listing of a container is assembled to that container and to no other.
pub fn a_listing_assembles_to_its_container()
    ensures { ListingAssembles }
{
    a_text_has_one_plan();
    a_listing_stands_for_its_plan();
}
