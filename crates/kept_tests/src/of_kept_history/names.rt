//! The directory of a history: its files by their names.

pub(crate) const OLD_TEXT: &[u8] = b"old";

pub(crate) const NEW_TEXT: &[u8] = b"new";

/// What a file of the directory contains.
#[derive(Clone, Copy)]
pub(crate) enum Text {
    Old,
    New,
    /// It was not synced: a part of it may be missing.
    Torn,
}

impl Text {
    pub(crate) fn of(text: &[u8]) -> Text {
        if text == OLD_TEXT {
            Text::Old
        } else if text == NEW_TEXT {
            Text::New
        } else {
            Text::Torn
        }
    }

    pub(crate) fn word(text: Option<Text>) -> &'static str {
        match text {
            None => "none",
            Some(Text::Old) => "old",
            Some(Text::New) => "new",
            Some(Text::Torn) => "torn",
        }
    }
}

/// The files `history`, `history.new` and `history.next`.
#[derive(Clone, Copy)]
pub(crate) struct Names {
    pub(crate) history: Option<Text>,
    pub(crate) new: Option<Text>,
    pub(crate) next: Option<Text>,
}

/// A change of the directory, by one system call. A file that is renamed keeps its text, whatever
/// becomes of its old name.
#[derive(Clone, Copy)]
pub(crate) enum Naming {
    /// `history.new` is made.
    Create(Text),
    /// `history.new` is renamed to `history.next`.
    Promise(Text),
    /// `history.next` is renamed to `history`.
    Commit(Text),
    /// `history.next` is removed.
    Withdraw,
    /// `history.new` is removed.
    Discard,
}

impl Names {
    pub(crate) const AT_REST: Names = Names {
        history: Some(Text::Old),
        new: None,
        next: None,
    };

    pub(crate) fn after(self, naming: Naming) -> Names {
        match naming {
            Naming::Create(text) => Names {
                new: Some(text),
                ..self
            },
            Naming::Promise(text) => Names {
                new: None,
                next: Some(text),
                ..self
            },
            Naming::Commit(text) => Names {
                history: Some(text),
                next: None,
                ..self
            },
            Naming::Withdraw => Names { next: None, ..self },
            Naming::Discard => Names { new: None, ..self },
        }
    }
}
