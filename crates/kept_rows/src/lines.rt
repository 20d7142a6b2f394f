//! Lines of a script.
ghost use Rattle.std.specs.Prelude.{◌≡◌, ◌++◌, map, codes, OnOk, OnErr};
ghost use Rattle.std.specs.List.{flat_map, list_all};
ghost use Rattle.script_words.specs.Words.{is_word_byte};
ghost use Rattle.kept_rows.specs.Lines.{can_be_word, spaced, line_of};

use history::Operator;
use std::alloc::AllocError;

fn is_word_byte(b: u8) -> bool
    ensures { result ≡ is_word_byte b }
{
    b != b' ' && b != b'\n'
}

fn has_word_bytes(text: &[u8]) -> bool
    ensures { result ≡ list_all is_word_byte text.now }
{
    text.iter().all(|b| is_word_byte(*b))
}

/// Whether a text can be a word of a line: it isn't empty, and no byte of it is a space or LF. A
/// line of such words is read as the call of exactly these words, if it has at most 65,536 bytes.
pub fn can_be_word(text: &[u8]) -> bool
    ensures { result ≡ can_be_word text.now }
{
    match text {
        [] => false,
        _ => has_word_bytes(text),
    }
}

fn push_words(line: &mut Vec<u8>, words: &[&[u8]]) -> Result<(), AllocError>
    ensures { OnOk result (line.new.items ≡ line.old.items ++ flat_map spaced (map (λ word. word.now) words.now)) }
{
    for word in words {
        line.push(b' ')?;
        line.extend_from_slice(word)?;
    }
    Ok(())
}

/// Adds an operator's name and words, with a space before each.
pub(crate) fn push_call(
    line: &mut Vec<u8>,
    operator: &[u8],
    words: &[&[u8]],
) -> Result<(), AllocError>
    ensures { OnOk result (line.new.items ≡ line.old.items ++ line_of operator.now (map (λ word. word.now) words.now)) }
{
    line.extend_from_slice(operator)?;
    push_words(line, words)
}

/// Appends the line of a call to the text of a history: the operator's name, the words with a space
/// before each, and LF. If memory runs out, nothing has been appended.
pub fn push_line(text: &mut Vec<u8>, operator: &Operator, words: &[&[u8]]) -> Result<(), AllocError>
    ensures ok { OnOk result (text.new.items ≡ text.old.items ++ (line_of operator.now (map (λ word. word.now) words.now) ++ codes "\n")) }
    ensures err { OnErr result (text.new.items ≡ text.old.items) }
{
    let mut line = Vec::new(*text.allocator());
    push_call(&mut line, operator.text(), words)?;
    line.push(b'\n')?;
    text.extend_from_slice(&line)
}
