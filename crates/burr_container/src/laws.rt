ghost use Rattle.burr_container.specs.Laws.PlanBytes.{FaultOrPlan, NoFaultOfPlan, OneFault, OnePlan, ContainerOfOnePlan, ContainedPlanFits};
ghost use Rattle.burr_container.specs.Laws.Upgrades.{FirstVersionHasNoResults, StaysFitting, SecondVersionStays};

/// Bytes are a plan's or have a fault, never both, and one plan's or one fault at most. So a plan
/// within the format is told by its bytes, and the bytes of one plan begin those of no other.
pub fn containers_are_unique()
    ensures one_plan { OnePlan }
    ensures fault_or_plan { FaultOrPlan }
    ensures no_fault_of_plan { NoFaultOfPlan }
    ensures one_fault { OneFault }
{}

/// A container is of one plan, and that one is within the format.
pub fn a_container_is_of_one_plan()
    ensures one { ContainerOfOnePlan }
    ensures fits { ContainedPlanFits }
{}

/// A plan of version 1 has no results and no exit guards. In version 2 it is within the format too,
/// and a plan of version 2 stays what it is.
pub fn upgrading_adds_nothing()
    ensures none { FirstVersionHasNoResults }
    ensures fits { StaysFitting }
    ensures stays { SecondVersionStays }
{}
