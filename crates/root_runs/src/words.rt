//! Words, and lists of them.
ghost use Rattle.std.specs.Prelude.{◌≡◌, ◌++◌, ◌∷◌, [], IfOk, OnOk, OnErr};

use std::alloc::{AllocError, Global};
use std::marker::Model;

/// A word of a call. Contracts see its bytes.
#[derive(Debug, Drop)]
pub struct Word {
    bytes: Vec<u8>,
}

impl Model for Word {
    ghost use Rattle.std.specs.Prelude.{List, ℕ};

    ghost Value = { List ℕ };

    ghost view = { λ word. word.bytes.items };
}

impl Word {
    /// The word of these bytes, whatever they are. It fails only if memory runs out.
    pub fn from_slice(alloc: Global, bytes: &[u8]) -> Result<Word, AllocError>
        ensures { IfOk result (λ word. word ≡ bytes.now) }
    {
        Ok(Word {
            bytes: Vec::from_slice(alloc, bytes)?,
        })
    }

    /// The word of these bytes, in their memory.
    pub(crate) fn of(bytes: Vec<u8>) -> Word
        ensures { result ≡ bytes.items }
    {
        Word { bytes }
    }

    pub fn bytes(&self) -> &[u8]
        ensures { result.now ≡ self.now }
    {
        &self.bytes
    }
}

/// The words of a call: the verb, its option and its arguments, as in a line of a script after the
/// operator. Contracts see their list.
#[derive(Debug, Drop)]
pub struct CallWords {
    words: Vec<Word>,
}

impl Model for CallWords {
    ghost use Rattle.std.specs.Prelude.{List, ℕ};

    ghost Value = { List (List ℕ) };

    ghost view = { λ call. call.words.items };
}

impl CallWords {
    /// No words. It takes no memory.
    pub fn none(alloc: Global) -> CallWords
        ensures { result ≡ [] }
    {
        CallWords {
            words: Vec::new(alloc),
        }
    }

    /// Adds a word at the end. If memory runs out, the list stays as it was.
    pub fn push(&mut self, word: Word) -> Result<(), AllocError>
        ensures ok { OnOk result (self.new ≡ self.old ++ word ∷ []) }
        ensures err { OnErr result (self.new ≡ self.old) }
    {
        Ok(self.words.push(word)?)
    }

    /// Adds the word of these bytes at the end. If memory runs out, the list stays as it was.
    pub fn push_bytes(&mut self, bytes: &[u8]) -> Result<(), AllocError>
        ensures ok { OnOk result (self.new ≡ self.old ++ bytes.now ∷ []) }
        ensures err { OnErr result (self.new ≡ self.old) }
    {
        let alloc = *self.words.allocator();
        self.push(Word::from_slice(alloc, bytes)?)
    }

    /// The words, in order.
    pub fn as_slice(&self) -> &[Word]
        ensures { result.now ≡ self.now }
    {
        &self.words
    }
}
