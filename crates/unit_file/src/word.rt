//! Words, and lists of them.
ghost use Rattle.std.specs.Prelude.{◌≡◌, ◌==◌, ◌++◌, [], length, OnOk, IfOk};
ghost use Rattle.unit_file.specs.Install.{words};
ghost use Rattle.unit_file.specs.Steps.{with_value, with_words};

use crate::line::is_blank;
use std::alloc::{AllocError, Global};
use std::marker::Model;

/// Some bytes of a unit file as they are written: a word of a list, or the value of a key.
/// Contracts see the bytes.
#[derive(Clone, Debug, Drop)]
pub struct Word {
    bytes: Vec<u8>,
}

impl Model for Word {
    ghost use Rattle.std.specs.Prelude.{List, ℕ};

    ghost Value = { List ℕ };

    ghost view = { λ word. word.bytes.items };
}

impl Word {
    /// The word of these bytes, whatever they are. The only error is `AllocError`, if memory runs
    /// out.
    pub fn from_slice(alloc: Global, bytes: &[u8]) -> Result<Word, AllocError>
        ensures { IfOk result (λ word. word ≡ bytes.now) }
    {
        Ok(Word {
            bytes: Vec::from_slice(alloc, bytes)?,
        })
    }

    /// The bytes as they are written. A word of a list has at least one byte, and no space, TAB or
    /// CR; a value may have any bytes.
    pub fn bytes(&self) -> &[u8]
        ensures { result.now ≡ self.now }
    {
        &self.bytes
    }

    /// An equal copy. The only error is `AllocError`, if memory runs out.
    pub fn copy(&self) -> Result<Word, AllocError>
        ensures { IfOk result (λ word. word ≡ self.now) }
    {
        self.clone()
    }
}

/// The words of a list of [Install] in the order of the file, repeated ones too. Contracts see them
/// as a list.
///
/// systemd.unit(5), "[Install] Section Options": "a space-separated list of unit names".
#[derive(Clone, Debug, Drop)]
pub struct Words {
    items: Vec<Word>,
}

impl Model for Words {
    ghost use Rattle.std.specs.Prelude.{List, ℕ};

    ghost Value = { List (List ℕ) };

    ghost view = { λ list. list.items.items };
}

impl Words {
    pub(crate) fn new(alloc: Global) -> Words
        ensures { result ≡ [] }
    {
        Words {
            items: Vec::new(alloc),
        }
    }

    /// The words in the order of the file.
    pub fn as_slice(&self) -> &[Word]
        ensures { result.now ≡ self.now }
    {
        &self.items
    }

    /// Whether there are no words.
    pub fn is_empty(&self) -> bool
        ensures { result ≡ (length self.now == 0) }
    {
        self.items.is_empty()
    }

    /// Adds the words of a value.
    pub(crate) fn add(&mut self, alloc: Global, value: &[u8]) -> Result<(), AllocError>
        ensures { OnOk result (self.new ≡ with_words self.old value.now) }
    {
        push_words(alloc, &mut self.items, value)
    }

    /// Adds the words of a value, or empties the list if the value is empty.
    pub(crate) fn assign(&mut self, alloc: Global, value: &[u8]) -> Result<(), AllocError>
        ensures { OnOk result (self.new ≡ with_value self.old value.now) }
    {
        if value.is_empty() {
            self.items.clear();
            return Ok(());
        }
        self.add(alloc, value)
    }
}

fn push_words(alloc: Global, items: &mut Vec<Word>, value: &[u8]) -> Result<(), AllocError>
    ensures { OnOk result (items.new.items ≡ items.old.items ++ words value.now) }
{
    for word in value.split(|b| is_blank(*b)) {
        if !word.is_empty() {
            items.push(Word::from_slice(alloc, word)?)?;
        }
    }
    Ok(())
}
