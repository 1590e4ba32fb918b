ghost use Rattle.burr_program.specs.ExplainLaws.{EachRuleIsExplained, EachTrapIsExplained};

/// Each rule of the verifier is explained under its word, and each trap under its number and its
/// name.
pub fn each_rule_and_trap_is_explained()
    ensures rules { EachRuleIsExplained }
    ensures traps { EachTrapIsExplained }
{}
