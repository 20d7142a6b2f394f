//! Words that were skipped, and why.
ghost use Rattle.std.specs.Prelude.{◌≡◌, ◌++◌, OnOk, IfOk};

use crate::word::Word;
use std::alloc::{AllocError, Global};
use unit_name::UnitName;

/// Where a skipped word is written: after a key of [Install], systemd.unit(5), or in a line of a
/// preset file, systemd.preset(5).
#[derive(Clone, Copy, Debug, PartialEq, Eq)]
pub enum NoticeKey {
    Also,
    WantedBy,
    RequiredBy,
    UpheldBy,
    Alias,
    Preset,
}

impl NoticeKey {
    ghost use Rattle.unit_file.specs.Notices.{key_text};

    /// The key, as it is written in the notice's line.
    pub fn text(self) -> &'static str
        ensures { result.now ≡ key_text self }
    {
        match self {
            NoticeKey::Also => "Also",
            NoticeKey::WantedBy => "WantedBy",
            NoticeKey::RequiredBy => "RequiredBy",
            NoticeKey::UpheldBy => "UpheldBy",
            NoticeKey::Alias => "Alias",
            NoticeKey::Preset => "Preset",
        }
    }
}

/// Why a word was skipped.
#[derive(Clone, Copy, Debug, PartialEq, Eq)]
pub enum Reason {
    /// It has a `%` that doesn't begin a specifier of unit names: systemd.unit(5), "Specifiers".
    BadSpecifier,
    /// It isn't a valid unit name after its specifiers are expanded.
    BadName,
    /// It is a valid name that the unit can't have as an alias: systemd.unit(5), "Alias=".
    BadAlias,
    /// No unit has the name.
    NotFound,
    /// The unit of that name is masked.
    Masked,
    /// The unit of that name is a link that leads to no unit file.
    Dangling,
    /// The name is an alias of another unit.
    IsAlias,
}

impl Reason {
    ghost use Rattle.unit_file.specs.Notices.{reason_text};

    /// The reason, as it is written in the notice's line.
    pub fn text(self) -> &'static str
        ensures { result.now ≡ reason_text self }
    {
        match self {
            Reason::BadSpecifier => "bad specifier",
            Reason::BadName => "bad name",
            Reason::BadAlias => "bad alias",
            Reason::NotFound => "not found",
            Reason::Masked => "masked",
            Reason::Dangling => "dangling",
            Reason::IsAlias => "is an alias",
        }
    }
}

/// A word of a unit's [Install] section, or of a line of a preset file, that was skipped.
#[derive(Debug, Drop)]
pub struct Notice {
    /// The unit whose section it is, or to which the line of presets applies.
    pub unit: UnitName,
    pub key: NoticeKey,
    /// The word as it is written, before any specifier is expanded.
    pub word: Word,
    pub reason: Reason,
}

impl Notice {
    ghost use Rattle.unit_file.specs.Notices.{notice_line};

    /// An equal copy.
    pub fn copy(&self) -> Result<Notice, AllocError>
        ensures { IfOk result (λ notice. notice ≡ self.now) }
    {
        Ok(Notice {
            unit: self.unit.copy()?,
            key: self.key,
            word: self.word.copy()?,
            reason: self.reason,
        })
    }

    /// The notice's line, `  ! UNIT: KEY WORD: REASON`, with the LF at its end.
    pub fn line(&self, alloc: Global) -> Result<Vec<u8>, AllocError>
        ensures { IfOk result (λ line. line.items ≡ notice_line self.now) }
    {
        let mut line = Vec::from_slice(alloc, b"  ! ")?;
        push_before(&mut line, self.unit.text(), b": ")?;
        push_before(&mut line, self.key.text().as_bytes(), b" ")?;
        push_before(&mut line, self.word.bytes(), b": ")?;
        push_before(&mut line, self.reason.text().as_bytes(), b"\n")?;
        Ok(line)
    }
}

/// Appends a text and what follows it.
fn push_before(line: &mut Vec<u8>, text: &[u8], behind: &[u8]) -> Result<(), AllocError>
    ensures { OnOk result (line.new.items ≡ line.old.items ++ text.now ++ behind.now) }
{
    line.extend_from_slice(text)?;
    line.extend_from_slice(behind)
}
