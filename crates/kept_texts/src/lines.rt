//! The lines of a history that aren't calls, as they are written. Each function appends to a line.
ghost use Rattle.std.specs.Prelude.{◌≡◌, ◌++◌, OnOk};
ghost use Rattle.kept_texts.specs.Lines.{header_mark, header_front, text_sum, outside_word, run_line, end_mark, end_front};

use crate::sums::{Sum, push_hex, push_sum};
use crate::words::{Header, RunWords};
use link_tree::push_decimal;
use script_words::push_escaped;
use std::alloc::AllocError;

#[tactic(auto, unfolding(crate::specs::Lines::header_mark))]
fn push_header_mark(line: &mut Vec<u8>) -> Result<(), AllocError>
    ensures { OnOk result (line.new.items ≡ line.old.items ++ header_mark) }
{
    line.extend_from_slice(b"# unitroot-history 1 id=")
}

/// The header up to ` text=`.
#[tactic(auto, unfolding(crate::specs::Lines::header_front))]
pub(crate) fn push_header(line: &mut Vec<u8>, header: &Header) -> Result<(), AllocError>
    ensures { OnOk result (line.new.items ≡ line.old.items ++ header_front header.now) }
{
    push_header_mark(line)?;
    push_hex(line, &header.id)?;
    line.extend_from_slice(b" root=")?;
    push_escaped(line, header.root.text())
}

/// The sum at the end of the header, or of the last line of a run.
#[tactic(auto, unfolding(crate::specs::Lines::text_sum))]
pub(crate) fn push_text_sum(line: &mut Vec<u8>, sum: &Sum) -> Result<(), AllocError>
    ensures { OnOk result (line.new.items ≡ line.old.items ++ text_sum sum.now) }
{
    line.extend_from_slice(b" text=")?;
    push_sum(line, sum)
}

fn push_outside(line: &mut Vec<u8>, outside: bool) -> Result<(), AllocError>
    ensures { OnOk result (line.new.items ≡ line.old.items ++ outside_word outside) }
{
    if outside {
        line.extend_from_slice(b" outside")
    } else {
        Ok(())
    }
}

/// The first line of a run.
#[tactic(auto, unfolding(crate::specs::Lines::run_line))]
pub(crate) fn push_run_line(line: &mut Vec<u8>, words: &RunWords) -> Result<(), AllocError>
    ensures { OnOk result (line.new.items ≡ line.old.items ++ run_line words.now) }
{
    line.extend_from_slice(b"# run ")?;
    line.extend_from_slice(words.time.text())?;
    line.extend_from_slice(b" login=")?;
    push_escaped(line, words.login.text())?;
    line.extend_from_slice(b" program=")?;
    push_escaped(line, words.program.text())?;
    line.extend_from_slice(b" rules=")?;
    push_decimal(line, words.rules as usize)?;
    push_outside(line, words.outside)
}

#[tactic(auto, unfolding(crate::specs::Lines::end_mark))]
fn push_end_mark(line: &mut Vec<u8>) -> Result<(), AllocError>
    ensures { OnOk result (line.new.items ≡ line.old.items ++ end_mark) }
{
    line.extend_from_slice(b"# end tree=")
}

/// The last line of a run up to ` text=`.
#[tactic(auto, unfolding(crate::specs::Lines::end_front))]
pub(crate) fn push_end(line: &mut Vec<u8>, tree: &Sum) -> Result<(), AllocError>
    ensures { OnOk result (line.new.items ≡ line.old.items ++ end_front tree.now) }
{
    push_end_mark(line)?;
    push_sum(line, tree)
}
