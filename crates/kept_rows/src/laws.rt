//! What holds of the rows of kept histories: each function does nothing, and its contract is the
//! law.
ghost use Rattle.kept_rows.specs.Kinds.{CommentsAreSkipped, CallLinesAreEnough};
ghost use Rattle.kept_rows.specs.Laws.{OthersLead, SlotsAreTaken, CapturedIsReached, OthersBlock, OthersHinder, OthersLeaveFree, LinesAreRead, UndoLinesAreRead, RedoLinesAreRead, LinesOfOthersAreRead, HistoriesAreInputs, RunsAreAppended, RedosAreAppended, OthersAreWritten, FirstTreeMayChange};

/// What others did at slots results in rows: each is accepted, and together they lead to the tree
/// that was captured, as far as slots go.
pub fn others_lead()
    ensures rows { OthersLead }
    ensures slots { SlotsAreTaken }
    ensures captured { CapturedIsReached }
{}

/// If the undo of a row was free and others changed what the row changed, it is refused, and a row
/// of others is named.
pub fn others_block()
    ensures { OthersBlock }
{}

/// If the redo of a row was free and others changed what the row changed, it is refused, and a row
/// of others is named.
pub fn others_hinder()
    ensures { OthersHinder }
{}

/// If others changed nothing at the paths that a row changed, its undo and its redo are as free as
/// they were.
pub fn others_leave_free()
    ensures { OthersLeaveFree }
{}

/// A line of words is read as the call of these words, and the lines of what others did are read as
/// exactly these calls.
pub fn lines_are_read()
    ensures words { LinesAreRead }
    ensures others { LinesOfOthersAreRead }
{}

/// The lines `OPERATOR undo N` and `OPERATOR redo N` are read as the undo and the redo of row N.
pub fn lines_of_undo_and_redo_are_read()
    ensures undo { UndoLinesAreRead }
    ensures redo { RedoLinesAreRead }
{}

/// The text of a history is an input of `unitadm`, and stays one when a run is appended: its rows
/// are the old ones, and one for each call of the run.
pub fn a_history_is_an_input()
    ensures input { HistoriesAreInputs }
    ensures appended { RunsAreAppended }
{}

/// A redo that is appended and not refused restores its row.
pub fn redos_are_appended()
    ensures { RedosAreAppended }
{}

/// The text of a history with the lines of what others did leaves the tree that was captured, as
/// far as slots go.
pub fn others_are_written()
    ensures { OthersAreWritten }
{}

/// What is at no slot may be put into the first tree as it is today, if no row looked at it.
pub fn first_tree_may_change()
    ensures { FirstTreeMayChange }
{}

/// The header and the end of a run and other comments are no calls: the lines of calls alone have
/// all calls of a history.
pub fn comments_are_skipped()
    ensures line { CommentsAreSkipped }
    ensures lines { CallLinesAreEnough }
{}
