ghost use Rattle.burr_plantext.specs.Laws.PlanTexts.{OnePlan, FaultOrPlan, NoFaultOfPlan, OneFault, FaultIsInText, SomeListing, OneListing, JudgedSource, ListingStands, PlanFits};

/// No text stands for two plans.
pub fn a_text_has_one_plan()
    ensures { OnePlan }
{}

/// The source that the lines of a text are judged to be is that of the text.
pub fn a_judged_text_is_of_its_source()
    ensures { JudgedSource }
{}

/// A text has a fault exactly where it stands for no plan, and then only one.
pub fn a_text_has_a_fault_or_a_plan()
    ensures some { FaultOrPlan }
    ensures not_both { NoFaultOfPlan }
    ensures one { OneFault }
    ensures inside { FaultIsInText }
{}

/// Each plan has one listing.
pub fn a_plan_has_one_listing()
    ensures some { SomeListing }
    ensures one { OneListing }
{}

/// The listing of a plan within the format stands for this plan.
pub fn a_listing_stands_for_its_plan()
    ensures { ListingStands }
{}

/// The plan that a text stands for is within the format.
pub fn a_text_stands_for_a_plan_within_the_format()
    ensures { PlanFits }
{}
