//! Properties of the answers that hold for all trees: each function does nothing, and its contract
//! is the law.
ghost use Rattle.states.specs.DependencyLaws.{DependenciesAreLeast, DependenciesTurnRound};
ghost use Rattle.states.specs.Laws.{WordsAreTold};

/// `is-enabled` answers each of its words exactly if it applies: by what the name is looked up as,
/// by the links that belong to the unit, by where its file is, and by what its [Install] section
/// lists.
pub fn words_are_told_where_they_hold()
    ensures { WordsAreTold }
{}

/// The dependencies of a unit are the least set of names closed under the links of each unit (for
/// an instance, also those of its template), without the unit's own name. In reverse the same holds
/// with the links followed backwards.
pub fn dependencies_are_least()
    ensures { DependenciesAreLeast }
{}

/// If no link belongs to a template, one unit is a dependency of another exactly if the other is a
/// reverse dependency of the first.
pub fn dependencies_turn_round()
    ensures { DependenciesTurnRound }
{}
