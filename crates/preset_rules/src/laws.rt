//! Laws of all presets: each function does nothing, and its contract is the law.
ghost use Rattle.preset_rules.specs.FileLaws.{FirstDirectoryWins};
ghost use Rattle.preset_rules.specs.Laws.{PoliciesAgree, PresetsDecide, FirstRuleDecides, NoRulesEnable, LastRuleDecides, EarlierRulesDecide, LineDisablesAll, RestIsDisabled, NoPresetsEnable};

/// What a policy says depends only on the entries at the preset slots and at the paths to which the
/// links that count lead, and on nothing else in a tree.
pub fn policies_agree()
    ensures agree { PoliciesAgree }
    ensures presets { PresetsDecide }
{}

/// The first rule that applies decides. If none applies, a unit is enabled; a rule that is last
/// decides if no other applies. So rules after others count exactly if none of the earlier ones
/// applies.
pub fn the_first_rule_decides()
    ensures first { FirstRuleDecides }
    ensures none { NoRulesEnable }
    ensures last { LastRuleDecides }
    ensures earlier { EarlierRulesDecide }
{}

/// A last line `disable *` disables exactly the units to which no earlier line applies; for all
/// others the verdict stays the same.
pub fn the_rest_is_disabled()
    ensures line { LineDisablesAll }
    ensures rest { RestIsDisabled }
{}

/// A tree without preset files has no rules: each unit is enabled, and no template is enabled with
/// instances.
pub fn without_presets_units_are_enabled()
    ensures { NoPresetsEnable }
{}

/// A slot counts for a file name exactly if it is in the first of the three directories that has
/// that name: what is in the directories after it changes nothing.
pub fn the_first_directory_wins()
    ensures { FirstDirectoryWins }
{}
