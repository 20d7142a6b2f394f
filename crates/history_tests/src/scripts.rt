//! Scripts of calls, undos, redos, plans and commits, and the results of their words.

use crate::bench::said;
use sample_rows::{Row, assert_rows};
use sample_steps::is;
use std::alloc::{AllocError, Global};
use std::test::Fail;

/// A script on a history of the empty tree, and the results of its words; then how many entries the
/// first tree has, and how many the last one has. A short history has room for one row.
const ROWS: &[u8] = b"\
    # a command is undone under later ones\n\
    history\tput:a put:b look:b undo:1 undo:1 remove:a put:b\t\t\
        ok ok ok undid:1 already-undone:4 absent:a exists:b / entries:0 to:1\n\
    # what looked at a change blocks it\n\
    history\tput:a look:a remove:a look:a put:b \
        undo:1 undo:3 undo:4 undo:3 undo:2 undo:1 remove:a put:b\t\t\
        ok ok ok ok ok \
        blocked:2 blocked:4 undid:4 undid:3 undid:2 undid:1 absent:a exists:b / entries:0 to:1\n\
    # refused calls and questions block nothing\n\
    history\tput:a put:a ask:a undo:0 undo:6 undo:2 undo:3 undo:4 undo:1 undo:1\t\t\
        ok exists:a static no-such-row no-such-row not-a-command not-a-command not-a-command \
        undid:1 already-undone:9 / entries:0 to:0\n\
    \n\
    # a plan is committed if the tree agrees\n\
    history\tplan:put:a put:b commit\t\tplanned ok row:2 / entries:0 to:2\n\
    # it is stale, and fresh again after an undo\n\
    history\tplan:put:a put:a commit undo:1 commit\t\t\
        planned ok stale:a undid:1 row:3 / entries:0 to:1\n\
    # the plan of a question\n\
    history\tplan:ask:a commit plan:ask:a put:a commit\t\t\
        planned row:1 planned ok stale:a / entries:0 to:1\n\
    # a command that is refused, and would not be after the undo\n\
    history\tput:a plan:put:a commit plan:put:a undo:1 commit\t\t\
        ok planned row:2 planned undid:1 stale:a / entries:0 to:0\n\
    # a command that changes nothing blocks the undo of what it looked at\n\
    history\tput:a plan:look:a commit undo:1\t\t\
        ok planned row:2 blocked:2 / entries:0 to:1\n\
    # the row of a plan is undone\n\
    history\tplan:put:a commit undo:1 plan:put:a commit\t\t\
        planned row:1 undid:1 planned row:3 / entries:0 to:1\n\
    \n\
    # a command is redone; what is not undone, is no command or is not there is not\n\
    history\tput:a undo:1 redo:1 redo:1 redo:0 redo:9 redo:2 undo:1 redo:1\t\t\
        ok undid:1 redid:1 not-undone no-row-to-redo no-row-to-redo no-command-to-redo \
        undid:1 redid:1 / entries:0 to:1\n\
    # a later command that looked at what it changed hinders it\n\
    history\tput:a undo:1 look:a redo:1 undo:3 redo:1\t\t\
        ok undid:1 ok hindered:3 undid:3 redid:1 / entries:0 to:1\n\
    # an earlier command that is undone since hinders it\n\
    history\tput:a look:a undo:2 undo:1 redo:2 redo:1 redo:2 redo:2\t\t\
        ok ok undid:2 undid:1 hindered:1 redid:1 redid:2 not-undone / entries:0 to:1\n\
    # an earlier command that is redone since hinders it\n\
    history\tput:a undo:1 look:a undo:3 redo:1 redo:3 undo:1 redo:3\t\t\
        ok undid:1 ok undid:3 redid:1 hindered:1 undid:1 redid:3 / entries:0 to:0\n\
    # what was undone and redone since is as it was\n\
    history\tput:a look:a undo:2 undo:1 redo:1 redo:2 undo:1\t\t\
        ok ok undid:2 undid:1 redid:1 redid:2 blocked:2 / entries:0 to:1\n\
    # the first of several is named\n\
    history\tput:b put:a look:a undo:3 undo:2 look:a redo:3 redo:2\t\t\
        ok ok ok undid:3 undid:2 ok hindered:2 hindered:6 / entries:0 to:1\n\
    # a row that is redone is listed again, and one that is undone says what hinders it\n\
    history\tput:a look:a undo:2 undo:1 index redo:1 index redo:2 index\t\t\
        ok ok undid:2 undid:1 1:unread 2:unread:hindered-by:1 3:unread 4:unread \
        redid:1 1:read-by:1 2:unread 3:unread 4:unread 5:unread \
        redid:2 1:read-by:1,2:blocked-by:2 2:unread 3:unread 4:unread 5:unread 6:unread \
        / entries:0 to:1\n\
    \n\
    # a full history takes no row: the operation comes back, an undo and a redo are refused too,\n\
    # and nothing changes\n\
    short history\tput:a put:b undo:0 undo:1 redo:1 index\t\t\
        ok full full full full 1:read-by:1 / entries:0 to:1\n\
    # a plan comes back from a full history, and a stale one from there too\n\
    short history\tplan:put:b put:a commit answer take-apart:put:b commit\t\t\
        planned ok full accepted put:b no-plan / entries:0 to:1\n\
    short history\tplan:remove:a put:a commit answer take-apart:remove:a index\t\t\
        planned ok stale:a refused remove:a 1:read-by:1 / entries:0 to:1\n\
    \n\
    # a row looks at what it changes itself, and a later one may too\n\
    history\tput:a look:a index\t\t\
        ok ok 1:read-by:1,2:blocked-by:2 2:unread / entries:0 to:1\n\
    # a row that is undone is listed no longer, of itself or of others\n\
    history\tput:a look:a undo:2 index\t\t\
        ok ok undid:2 1:read-by:1 2:unread 3:unread / entries:0 to:1\n\
    history\tput:a look:a undo:2 undo:1 index\t\t\
        ok ok undid:2 undid:1 1:unread 2:unread:hindered-by:1 3:unread 4:unread \
        / entries:0 to:0\n\
    # a row that is refused or only asks never was\n\
    history\tput:a put:a ask:a remove:b index\t\t\
        ok exists:a static absent:b 1:read-by:1 2:unread 3:unread 4:unread / entries:0 to:1\n\
    # an undo that is refused changes nothing\n\
    history\tput:a put:b look:b undo:2 remove:a index\t\t\
        ok ok ok blocked:3 ok 1:read-by:1,5:blocked-by:5 2:read-by:2,3:blocked-by:3 \
        3:unread 4:unread 5:read-by:1,5 / entries:0 to:1\n\
    history\tput:a remove:a put:a index\t\t\
        ok ok ok 1:read-by:1,2,3:blocked-by:2 2:read-by:1,2,3:blocked-by:3 3:read-by:1,2,3 \
        / entries:0 to:1\n\
    history\tput:a look:a remove:a index undo:3 index\t\t\
        ok ok ok 1:read-by:1,2,3:blocked-by:2 2:unread 3:read-by:1,2,3 \
        undid:3 1:read-by:1,2:blocked-by:2 2:unread 3:read-by:1,2 4:unread / entries:0 to:1\n\
    ";

fn answer(alloc: Global, row: &Row) -> Result<Vec<u8>, AllocError> {
    let is_short = is(&row.kind, b"short history");
    if is_short || is(&row.kind, b"history") {
        return said(alloc, is_short, &row.one);
    }
    Vec::from_slice(alloc, b"unknown kind")
}

#[test]
fn each_word_of_a_script_is_answered(rt: HostRuntime) -> Result<(), Fail> {
    assert_rows(rt.alloc(), ROWS, answer)
}
