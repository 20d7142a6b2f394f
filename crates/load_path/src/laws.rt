//! Laws of all lookups: each function does nothing, and its contract is the law.
ghost use Rattle.load_path.specs.Laws.{CellsOnce, FollowAgrees, FindAgrees, FollowIsShort, FindIsShort, FollowIsChain, FileIsLed, FollowLooksAlongChain, PlaceIsEntrys, MissingHasNoEntry, FindLooksAlongChain, NamesAreFoundByFirstEntry, UnitIsFollowed, MaskedIsFollowed, DanglingIsLink, UnitHasFile, UnitIsLikeName, PlainIsItsFile};

/// Each path that was looked at is listed once, and no other path is listed.
pub fn cells_are_listed_once()
    ensures { CellsOnce }
{}

/// A lookup depends only on what it looks at: trees that have the same entries at its paths give
/// the same result, and the same paths are looked at.
pub fn look_ups_agree()
    ensures follow { FollowAgrees }
    ensures find { FindAgrees }
{}

/// `follow` looks at no more than nine paths, and `find` at no more than sixteen.
pub fn look_ups_are_short()
    ensures follow { FollowIsShort }
    ensures find { FindIsShort }
{}

/// Where a path leads is the end of a chain of at most eight links that begins at it: a file, an
/// empty file or `/dev/null`, or a link from which nothing is reached. A path is looked at exactly
/// if at most eight links lead to it.
pub fn chains_are_followed()
    ensures chain { FollowIsChain }
    ensures file { FileIsLed }
    ensures cells { FollowLooksAlongChain }
{}

/// The first directory that has an entry for the name counts, or the first that has one for its
/// template if none has one for the name. The result names this directory, wherever the file is.
/// The unit is missing exactly if there is no such entry, masked exactly if the first one leads to
/// `/dev/null` or an empty file, found exactly if it leads to a file whose name is right for the
/// unit, and dangling at the last link exactly if it leads nowhere, or to a file with another name.
/// A path is looked at exactly if it is tried for the name and nothing is at the paths tried before
/// it, or if at most eight links lead to it from the first entry.
pub fn the_first_entry_counts()
    ensures place { PlaceIsEntrys }
    ensures missing { MissingHasNoEntry }
    ensures found { NamesAreFoundByFirstEntry }
    ensures cells { FindLooksAlongChain }
{}

/// A unit is looked up by following what is in its slot, or in its template's slot.
pub fn slots_are_followed()
    ensures unit { UnitIsFollowed }
    ensures masked { MaskedIsFollowed }
{}

/// What is reported as dangling is a link.
pub fn links_dangle()
    ensures { DanglingIsLink }
{}

/// A unit has a file that isn't empty, and a name with the type and the instance of the name that
/// led to it. A plain unit has the name of its file.
pub fn units_have_files_and_names()
    ensures file { UnitHasFile }
    ensures name { UnitIsLikeName }
    ensures plain { PlainIsItsFile }
{}
