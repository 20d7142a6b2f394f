//! What one call prints.
ghost use Rattle.std.specs.Prelude.{◌≡◌, ◌++◌, OnOk, OnErr};
ghost use Rattle.std.specs.List.{flat_map};
ghost use Rattle.std.specs.FinMap as map;
ghost use Rattle.root_runs.specs.Roots.{rooted};
ghost use Rattle.root_runs.specs.Messages.{arrow, removed_text, created_link_text, created_file_text, removed_line, created_entry, created_line, change_lines, before_word, after_word, skipped_reason, notice_text, purpose, refusal_sentence, undo_sentence, redo_sentence, request_text, failure_text, refused_line, messages_of, row_messages, missing_text};
ghost use Rattle.root_runs.specs.Escapes.{shown};
ghost use Rattle.unit_script.specs.Texts.{subject_text, numbered};

use crate::escapes::push_each_shown;
use crate::roots::push_rooted;
use footprint::{Answer, Refusal, Subject};
use history::{RedoRefusal, Request, Row, RowReply, UndoRefusal};
use link_tree::{Change, Entry, TreePath, push_decimal};
use std::alloc::AllocError;
use unit_file::{Notice, NoticeKey, Notices, Reason};
use unit_name::UnitName;
use unit_script::Action;

fn removed_text(dry_run: bool) -> &'static str
    ensures { result.now ≡ removed_text dry_run }
{
    if dry_run {
        "Would remove \""
    } else {
        "Removed \""
    }
}

fn created_link_text(dry_run: bool) -> &'static str
    ensures { result.now ≡ created_link_text dry_run }
{
    if dry_run {
        "Would create symlink "
    } else {
        "Created symlink "
    }
}

fn created_file_text(dry_run: bool) -> &'static str
    ensures { result.now ≡ created_file_text dry_run }
{
    if dry_run {
        "Would create file \""
    } else {
        "Created file \""
    }
}

fn push_removed(
    out: &mut Vec<u8>,
    dry_run: bool,
    root: &[u8],
    path: &TreePath,
    entry: &Option<Entry>,
) -> Result<(), AllocError>
    ensures { OnOk result (out.new.items ≡ out.old.items ++ removed_line dry_run root.now path.now entry.now) }
{
    match entry {
        Some(_) => {
            out.extend_from_slice(removed_text(dry_run).as_bytes())?;
            push_rooted(out, root, path.text())?;
            out.extend_from_slice(b"\".\n")
        }
        None => Ok(()),
    }
}

fn push_created_entry(
    out: &mut Vec<u8>,
    dry_run: bool,
    root: &[u8],
    path: &TreePath,
    entry: &Entry,
) -> Result<(), AllocError>
    ensures { OnOk result (out.new.items ≡ out.old.items ++ created_entry dry_run root.now path.now entry.now) }
{
    match entry {
        Entry::File(contents) => {
            out.extend_from_slice(created_file_text(dry_run).as_bytes())?;
            push_rooted(out, root, path.text())?;
            out.extend_from_slice(b"\" of ")?;
            push_decimal(out, contents.bytes().len())?;
            out.extend_from_slice(b" bytes.\n")
        }
        Entry::Link(target) => {
            out.extend_from_slice(created_link_text(dry_run).as_bytes())?;
            push_rooted(out, root, path.text())?;
            out.extend_from_slice(b" \xE2\x86\x92 ")?;
            push_each_shown(out, target.text())?;
            out.extend_from_slice(b".\n")
        }
    }
}

fn push_created(
    out: &mut Vec<u8>,
    dry_run: bool,
    root: &[u8],
    path: &TreePath,
    entry: &Option<Entry>,
) -> Result<(), AllocError>
    ensures { OnOk result (out.new.items ≡ out.old.items ++ created_line dry_run root.now path.now entry.now) }
{
    match entry {
        Some(entry) => push_created_entry(out, dry_run, root, path, entry),
        None => Ok(()),
    }
}

fn push_each_change(
    out: &mut Vec<u8>,
    dry_run: bool,
    root: &[u8],
    changes: &[Change],
) -> Result<(), AllocError>
    ensures { OnOk result (out.new.items ≡ out.old.items ++ flat_map (change_lines dry_run root.now) changes.now) }
{
    for change in changes {
        push_removed(out, dry_run, root, &change.path, &change.before)?;
        push_created(out, dry_run, root, &change.path, &change.after)?;
    }
    Ok(())
}

/// Appends what standard error has for changes, as systemctl does: for each that removes an entry
/// `Removed "PATH".`, and for each that makes one `Created symlink PATH → TARGET.` or
/// `Created file "PATH" of N bytes.`; of an entry that is replaced both. In a dry run it says
/// `Would remove` and `Would create`. The root as it was given comes before each path, without
/// slashes at its end. If memory runs out, nothing has been appended.
pub fn push_change_messages(
    out: &mut Vec<u8>,
    root: &[u8],
    dry_run: bool,
    changes: &[Change],
) -> Result<(), AllocError>
    ensures ok { OnOk result (out.new.items ≡ out.old.items ++ flat_map (change_lines dry_run root.now) changes.now) }
    ensures err { OnErr result (out.new.items ≡ out.old.items) }
{
    let mut text = Vec::new(*out.allocator());
    push_each_change(&mut text, dry_run, root, changes)?;
    out.extend_from_slice(&text)
}

/// Bytes as they are shown, and a text after them.
fn push_before(out: &mut Vec<u8>, bytes: &[u8], after: &str) -> Result<(), AllocError>
    ensures { OnOk result (out.new.items ≡ out.old.items ++ shown bytes.now ++ after.now) }
{
    push_each_shown(out, bytes)?;
    out.extend_from_slice(after.as_bytes())
}

fn before_word(key: NoticeKey) -> &'static str
    ensures { result.now ≡ before_word key }
{
    match key {
        NoticeKey::Also => ": Also=",
        NoticeKey::WantedBy => ": WantedBy=",
        NoticeKey::RequiredBy => ": RequiredBy=",
        NoticeKey::UpheldBy => ": UpheldBy=",
        NoticeKey::Alias => ": Alias=",
        NoticeKey::Preset => ": the instance ",
    }
}

fn after_word(key: NoticeKey) -> &'static str
    ensures { result.now ≡ after_word key }
{
    match key {
        NoticeKey::Also | NoticeKey::WantedBy | NoticeKey::RequiredBy => " is skipped: ",
        NoticeKey::UpheldBy | NoticeKey::Alias => " is skipped: ",
        NoticeKey::Preset => " of its preset is skipped: ",
    }
}

fn skipped_reason(reason: Reason) -> &'static str
    ensures { result.now ≡ skipped_reason reason }
{
    match reason {
        Reason::BadSpecifier => " has an unknown specifier.\n",
        Reason::BadName => " is no unit's name.\n",
        Reason::BadAlias => " is no name that the unit can have as an alias.\n",
        Reason::NotFound => " does not exist.\n",
        Reason::Masked => " is masked.\n",
        Reason::Dangling => " is a link that leads to no unit file.\n",
        Reason::IsAlias => " is an alias of another unit.\n",
    }
}

/// The sentence on a word that was skipped.
fn push_notice(out: &mut Vec<u8>, notice: &Notice) -> Result<(), AllocError>
    ensures { OnOk result (out.new.items ≡ out.old.items ++ notice_text notice.now) }
{
    push_before(out, notice.unit.text(), before_word(notice.key))?;
    push_before(out, notice.word.bytes(), after_word(notice.key))?;
    push_before(out, notice.word.bytes(), skipped_reason(notice.reason))
}

fn push_notices(out: &mut Vec<u8>, notices: &Notices) -> Result<(), AllocError>
    ensures { OnOk result (out.new.items ≡ out.old.items ++ flat_map notice_text (map.values notices.now)) }
{
    for notice in notices.iter() {
        push_notice(out, notice)?;
    }
    Ok(())
}

/// What an operation was to do, before its subject.
fn purpose(action: &Action) -> &'static str
    ensures { result.now ≡ purpose action.now }
{
    match action {
        Action::Enable(_) => "enable ",
        Action::Disable(_) => "disable ",
        Action::Reenable(_) => "reenable ",
        Action::Preset(_) => "preset ",
        Action::Mask(_) => "mask ",
        Action::Unmask(_) => "unmask ",
        Action::LinkUnits(_) => "link ",
        Action::AddTo(_) => "add a dependency on ",
        Action::SetDefault(_) => "set the default to ",
        Action::PlaceEntry(_) => "place ",
        Action::RemoveEntry(_) => "remove ",
        Action::IsEnabled(_) => "get the state of ",
        Action::GetDefault(_) => "get the default, ",
        Action::Dependencies(_) => "list the dependencies of ",
    }
}

fn subject_text(subject: &Subject) -> &[u8]
    ensures { result.now ≡ subject_text subject.now }
{
    match subject {
        Subject::Unit(name) => name.text(),
        Subject::Path(path) => path.text(),
    }
}

fn push_wrong(out: &mut Vec<u8>, subject: &[u8], wrong: &[u8]) -> Result<(), AllocError>
    ensures { OnOk result (out.new.items ≡ out.old.items ++ shown subject.now ++ wrong.now) }
{
    push_each_shown(out, subject)?;
    out.extend_from_slice(wrong)
}

fn push_alias(out: &mut Vec<u8>, unit: &UnitName, real: &UnitName) -> Result<(), AllocError>
    ensures { OnOk result (out.new.items ≡ out.old.items ++ refusal_sentence (Refusal.IsAlias unit.now real.now)) }
{
    push_wrong(out, unit.text(), b": it is an alias of ")?;
    push_wrong(out, real.text(), b".\n")
}

/// The unit or the path at fault, and what is wrong with it.
fn push_sentence(out: &mut Vec<u8>, refusal: &Refusal) -> Result<(), AllocError>
    ensures { OnOk result (out.new.items ≡ out.old.items ++ refusal_sentence refusal.now) }
{
    match refusal {
        Refusal::NotFound(subject) => {
            push_wrong(out, subject_text(subject), b": it does not exist.\n")
        }
        Refusal::Masked(subject) => push_wrong(out, subject_text(subject), b": it is masked.\n"),
        Refusal::Dangling(link) => push_wrong(out, link.text(), b": this link leads nowhere.\n"),
        Refusal::BadType(subject) => {
            push_wrong(out, subject_text(subject), b": it has the wrong type.\n")
        }
        Refusal::NeedsInstance(name) => push_wrong(
            out,
            name.text(),
            b": it is a template, and needs an instance.\n",
        ),
        Refusal::NotASlot(path) => push_wrong(
            out,
            path.text(),
            b": no unit, dependency or preset is read from this path.\n",
        ),
        Refusal::Absent(path) => push_wrong(out, path.text(), b": nothing is there.\n"),
        Refusal::Exists(path) => push_wrong(out, path.text(), b": something else is there.\n"),
        Refusal::IsAlias { unit, real } => push_alias(out, unit, real),
        Refusal::TooMany => out.extend_from_slice(b"them: they name more than 1,024 units.\n"),
        Refusal::Clash(path) => push_wrong(
            out,
            path.text(),
            b": links with different targets are wanted there.\n",
        ),
    }
}

/// A number between two texts.
fn push_numbered(out: &mut Vec<u8>, before: &[u8], n: u32, after: &[u8]) -> Result<(), AllocError>
    ensures { OnOk result (out.new.items ≡ out.old.items ++ numbered before.now n after.now) }
{
    out.extend_from_slice(before)?;
    push_decimal(out, n as usize)?;
    out.extend_from_slice(after)
}

fn push_undo_sentence(out: &mut Vec<u8>, refusal: UndoRefusal) -> Result<(), AllocError>
    ensures { OnOk result (out.new.items ≡ out.old.items ++ undo_sentence refusal) }
{
    match refusal {
        UndoRefusal::NoSuchRow => out.extend_from_slice(b": there is no such row.\n"),
        UndoRefusal::NotACommand => out.extend_from_slice(b": it is no accepted command.\n"),
        UndoRefusal::AlreadyUndone(by) => {
            push_numbered(out, b": it was undone by row ", by, b".\n")
        }
        UndoRefusal::Blocked(by) => push_numbered(out, b": it is blocked by row ", by, b".\n"),
    }
}

fn push_redo_sentence(out: &mut Vec<u8>, refusal: RedoRefusal) -> Result<(), AllocError>
    ensures { OnOk result (out.new.items ≡ out.old.items ++ redo_sentence refusal) }
{
    match refusal {
        RedoRefusal::NoSuchRow => out.extend_from_slice(b": there is no such row.\n"),
        RedoRefusal::NotACommand => out.extend_from_slice(b": it is no accepted command.\n"),
        RedoRefusal::NotUndone => out.extend_from_slice(b": it is not undone.\n"),
        RedoRefusal::Hindered(by) => push_numbered(out, b": it is hindered by row ", by, b".\n"),
    }
}

/// What a request was to do.
fn push_request(out: &mut Vec<u8>, request: &Request<Action>) -> Result<(), AllocError>
    ensures { OnOk result (out.new.items ≡ out.old.items ++ request_text request.now) }
{
    match request {
        Request::Do(action) => out.extend_from_slice(purpose(action).as_bytes()),
        Request::Undo(n) => push_numbered(out, b"undo row ", *n, b""),
        Request::Redo(n) => push_numbered(out, b"redo row ", *n, b""),
    }
}

/// What went wrong with a request, after what it was to do.
fn push_failure(out: &mut Vec<u8>, reply: &RowReply) -> Result<(), AllocError>
    ensures { OnOk result (out.new.items ≡ out.old.items ++ failure_text reply.now) }
{
    match reply {
        RowReply::Answered(Answer::Refused(refusal)) => push_sentence(out, refusal),
        RowReply::Answered(Answer::Done(_) | Answer::State(_)) => Ok(()),
        RowReply::Answered(Answer::Name(_) | Answer::Names(_)) => Ok(()),
        RowReply::Undid(_) | RowReply::Redid(_) => Ok(()),
        RowReply::UndoRefused(refusal) => push_undo_sentence(out, *refusal),
        RowReply::RedoRefused(refusal) => push_redo_sentence(out, *refusal),
    }
}

/// The sentence on a request that was refused.
fn push_refused(out: &mut Vec<u8>, row: &Row<Action>) -> Result<(), AllocError>
    ensures { OnOk result (out.new.items ≡ out.old.items ++ refused_line row.now) }
{
    out.extend_from_slice(b"Failed to ")?;
    push_request(out, &row.request)?;
    push_failure(out, &row.reply)
}

pub(crate) fn push_row_messages(out: &mut Vec<u8>, row: &Row<Action>) -> Result<(), AllocError>
    ensures { OnOk result (out.new.items ≡ out.old.items ++ row_messages row.now) }
{
    match &row.reply {
        RowReply::Answered(Answer::Done(notices)) => push_notices(out, notices),
        RowReply::Answered(Answer::State(_) | Answer::Name(_) | Answer::Names(_)) => Ok(()),
        RowReply::Answered(Answer::Refused(_)) => push_refused(out, row),
        RowReply::Undid(_) | RowReply::Redid(_) => Ok(()),
        RowReply::UndoRefused(_) | RowReply::RedoRefused(_) => push_refused(out, row),
    }
}

fn push_each_row(out: &mut Vec<u8>, rows: &[Row<Action>]) -> Result<(), AllocError>
    ensures { OnOk result (out.new.items ≡ out.old.items ++ flat_map row_messages rows.now) }
{
    for row in rows {
        push_row_messages(out, row)?;
    }
    Ok(())
}

/// Appends what standard error has for rows: for each word that an accepted command skipped
/// `UNIT: KEY=WORD is skipped: ..`, and for each call that was refused `Failed to enable UNIT: ..`,
/// each on a line. If memory runs out, nothing has been appended.
pub fn push_messages(out: &mut Vec<u8>, rows: &[Row<Action>]) -> Result<(), AllocError>
    ensures ok { OnOk result (out.new.items ≡ out.old.items ++ flat_map row_messages rows.now) }
    ensures err { OnErr result (out.new.items ≡ out.old.items) }
{
    let mut text = Vec::new(*out.allocator());
    push_each_row(&mut text, rows)?;
    out.extend_from_slice(&text)
}

/// Appends the warning on a unit that does not exist, as `shh.service does not exist.`, on a line.
/// If memory runs out, nothing has been appended.
pub fn push_missing_warning(out: &mut Vec<u8>, name: &[u8]) -> Result<(), AllocError>
    ensures ok { OnOk result (out.new.items ≡ out.old.items ++ missing_text name.now) }
    ensures err { OnErr result (out.new.items ≡ out.old.items) }
{
    let mut text = Vec::new(*out.allocator());
    push_wrong(&mut text, name, b" does not exist.\n")?;
    out.extend_from_slice(&text)
}
