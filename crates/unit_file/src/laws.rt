//! Laws of all unit files and of all notices: each function does nothing, and its contract is the
//! law.
ghost use Rattle.unit_file.specs.Laws.{LastLineFeed, LastReturn, CommentsSayNothing, ValuesAddUp, ListsAddUp};
ghost use Rattle.unit_file.specs.NoticeLaws.{AddInAnyOrder, AddOnce, JoinByLine, JoinInSteps, JoinNone};

/// A line feed at the end of a file has no effect, unless it makes a CR before it part of the
/// line's end.
pub fn last_line_ends_itself()
    ensures line_feed { LastLineFeed }
    ensures carriage_return { LastReturn }
{}

/// A comment has no effect, wherever it is.
pub fn comments_say_nothing()
    ensures { CommentsSayNothing }
{}

/// Two files that are concatenated ask for what each of them asks for.
pub fn files_add_up()
    ensures values { ValuesAddUp }
    ensures lists { ListsAddUp }
{}

/// Notices are a set: each is reported once, in whatever order they were added, and if notices are
/// joined in steps, it doesn't matter which are joined first.
pub fn notices_are_a_set()
    ensures any_order { AddInAnyOrder }
    ensures once { AddOnce }
    ensures by_line { JoinByLine }
    ensures in_steps { JoinInSteps }
    ensures none { JoinNone }
{}
