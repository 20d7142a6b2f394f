//! Laws of all paths and links: each function does nothing, and its contract is the law.
ghost use Rattle.unit_paths.specs.Laws.{CanonicalIsPath, LeadsByParts, PathsLieBeneath, BadShapeIsCloseToSlot};
ghost use Rattle.unit_paths.specs.Spellings.{SlotsAreSpelled};

/// A link leads to a path, unless it leads to the root or to a path that is too long.
pub fn links_lead_to_paths()
    ensures { CanonicalIsPath }
{}

/// A target is resolved part by part: an absolute path leads to itself, one more part leads to that
/// part there, `..` to the directory above, and `.` to the same place; then `/lib/systemd/` is read
/// as `/usr/lib/systemd/`.
pub fn targets_lead_part_by_part()
    ensures { LeadsByParts }
{}

/// A path lies beneath another if it begins with the other and a slash; and it is under a slot if
/// it lies beneath one.
pub fn paths_lie_beneath()
    ensures { PathsLieBeneath }
{}

/// A path is a slot exactly if it is spelled as one, in five forms: a unit's name in a directory of
/// units, the same in a directory `OF.wants`, `OF.requires` or `OF.upholds` there, and
/// `FILE.preset` in a directory of presets.
pub fn slots_are_spelled()
    ensures { SlotsAreSpelled }
{}

/// A path is of bad shape exactly if a slot lies above it or beneath it.
pub fn bad_shapes_are_close_to_slots()
    ensures { BadShapeIsCloseToSlot }
{}
