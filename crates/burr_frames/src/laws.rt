ghost use Rattle.burr_frames.specs.Laws.LookLaws.{OneRuleLooks, SomeRuleLooks, FewRuleLooks, AllAreMade};
ghost use Rattle.burr_frames.specs.Laws.TransferLaws.{OneVerdict};

use burr_forms::the_points_are_given;

/// An instruction has exactly one verdict in a state: which rule it breaks, and where, is
/// determined, and so is the state after it where it breaks none.
pub fn an_instruction_has_one_verdict()
    ensures { OneVerdict }
{}

/// An instruction's rule has exactly one number of looks, at most 4,096 times 256 for 32 pieces and
/// 4,096 points at most.
pub fn a_rule_has_so_many_looks()
    ensures some { SomeRuleLooks }
    ensures one { OneRuleLooks }
    ensures few { FewRuleLooks }
    ensures made { AllAreMade }
{
    the_points_are_given();
}
