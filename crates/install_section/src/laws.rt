//! Laws of closures and of wanted links.
ghost use Rattle.install_section.specs.ClosureLaws.{ClosureIsLeast, RefusedWhereTooMany, NoticesAreOfSkippedWords, AnyOrder};
ghost use Rattle.install_section.specs.SectionLaws.{SectionLooksAsFind};
ghost use Rattle.install_section.specs.WantedLaws as wanted;

/// The closure is the least set that contains the given units and, with each unit, those that its
/// file names. Each is there once.
pub fn closure_is_least()
    ensures { ClosureIsLeast }
{}

/// A closure is refused exactly if that set has over 1,024 units.
pub fn refused_where_too_many()
    ensures { RefusedWhereTooMany }
{}

/// The notices of a closure are about the skipped words of its units: all of them, and no others.
pub fn notices_are_of_skipped_words()
    ensures { NoticesAreOfSkippedWords }
{}

/// In whatever order the units are given, the closure is the same set, with the same lines of
/// notices; or it is refused in each case.
pub fn order_of_given_units_is_free()
    ensures { AnyOrder }
{}

/// The wanted links are those for which a unit asks by one of three rules: another unit lists it,
/// its default instance is listed, or it has an alias.
pub fn links_are_asked_for()
    ensures { wanted.LinksAreAskedFor }
{}

/// `NeedsInstance` is returned exactly if a template needs an instance that it doesn't have, and
/// names the least such template.
pub fn instance_is_needed_by_the_least()
    ensures { wanted.NeedsLeastInstance }
{}

/// `Clash` is returned exactly if no instance is needed and a path is wanted with two targets, and
/// names the least such path.
pub fn clash_is_the_least()
    ensures { wanted.ClashIsLeast }
{}

/// The notices of wanted links are about the skipped words: all of them, and no others.
pub fn notices_of_links_are_of_skipped_words()
    ensures { wanted.NoticesAreOfSkippedWords }
{}

/// Reading the section of a unit looks at exactly the paths that looking the unit up looks at. So a
/// closure looks at exactly the paths of looking up its units and the words of `Also=`, and the
/// wanted links at those of looking up the units.
pub fn sections_look_no_further()
    ensures { SectionLooksAsFind }
{}
