//! What the lines of a history are.
ghost use Rattle.std.specs.Prelude.{◌≡◌};
ghost use Rattle.unit_script.specs.Script.{is_comment};
ghost use Rattle.kept_rows.specs.Kinds.{comment_kind, line_kind};

/// What a line after `== calls` is in a history that is kept with a root.
#[derive(Clone, Copy, Debug, PartialEq, Eq)]
pub enum LineKind {
    /// `# run ..`: the header of a run, whose calls follow.
    Run,
    /// `# end ..`: the end of a run.
    End,
    /// Any other line that begins with `#`.
    Comment,
    /// Any other line: a call, or nothing if it has no word.
    Call,
}

fn is_comment(line: &[u8]) -> bool
    ensures { result ≡ is_comment line.now }
{
    match line {
        [] => false,
        [first, ..] => *first == b'#',
    }
}

fn comment_kind(line: &[u8]) -> LineKind
    ensures { result ≡ comment_kind line.now }
{
    if line.starts_with(b"# run ") {
        LineKind::Run
    } else if line.starts_with(b"# end ") {
        LineKind::End
    } else {
        LineKind::Comment
    }
}

/// What a line is, without its end. A line of any other kind than `Call` is skipped when a history
/// is read as an input of `unitadm`.
pub fn line_kind(line: &[u8]) -> LineKind
    ensures { result ≡ line_kind line.now }
{
    if is_comment(line) {
        comment_kind(line)
    } else {
        LineKind::Call
    }
}
