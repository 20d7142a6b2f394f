ghost use Rattle.std.specs.Prelude.{◌≡◌, OnOk, IfOk};
ghost use Rattle.unit_file.specs.Lines.{stripped};

use crate::line::{assignment, opens_section, stripped};
use crate::word::{Word, Words};
use std::alloc::{AllocError, Global};

/// What the [Install] section of a unit file asks for. Its words are as they are written:
/// specifiers aren't expanded, and it isn't checked whether a word is a unit's name.
///
/// systemd.unit(5), "[Install] Section Options".
#[derive(Clone, Debug, Drop)]
pub struct InstallText {
    /// The words of `WantedBy=`, of all its lines since the last empty value.
    pub wanted_by: Words,
    /// Those of `RequiredBy=`, in the same way.
    pub required_by: Words,
    /// Those of `UpheldBy=`, in the same way.
    pub upheld_by: Words,
    /// Those of `Alias=`, in the same way.
    pub alias: Words,
    /// The words of all lines of `Also=`; an empty value doesn't empty this list.
    pub also: Words,
    /// The last value of `DefaultInstance=`, valid or not. `None` if there is no such line, or if the
    /// last one is empty.
    pub default_instance: Option<Word>,
}

impl InstallText {
    ghost use Rattle.unit_file.specs.Steps.{nothing, with_assignment, inside_after, text_after};

    /// What an empty file asks for.
    pub(crate) fn new(alloc: Global) -> InstallText
        ensures { result ≡ nothing }
    {
        InstallText {
            wanted_by: Words::new(alloc),
            required_by: Words::new(alloc),
            upheld_by: Words::new(alloc),
            alias: Words::new(alloc),
            also: Words::new(alloc),
            default_instance: None,
        }
    }

    /// An equal copy. The only error is running out of memory.
    pub fn copy(&self) -> Result<InstallText, AllocError>
        ensures { IfOk result (λ text. text ≡ self.now) }
    {
        self.clone()
    }

    /// Takes the next logical line, and returns whether the lines after it are in [Install].
    /// `inside` says whether this one is.
    #[tactic(auto, unfolding(crate::specs::Steps::inside_after, crate::specs::Steps::text_after))]
    pub(crate) fn take_line(
        &mut self,
        alloc: Global,
        inside: bool,
        line: &[u8],
    ) -> Result<bool, AllocError>
        ensures inside { IfOk result (λ after. after ≡ inside_after inside (stripped line.now)) }
        ensures text { OnOk result (self.new ≡ text_after inside self.old (stripped line.now)) }
    {
        let line = stripped(line);
        if opens_section(line) {
            return Ok(line == b"[Install]".as_slice());
        }
        if inside {
            if let Some((key, value)) = assignment(line) {
                self.assign(alloc, key, value)?;
            }
        }
        Ok(inside)
    }

    /// Takes a line `KEY=VALUE` of [Install]. A key that isn't one of the six changes nothing.
    #[tactic(auto, unfolding(crate::specs::Steps::with_assignment))]
    fn assign(&mut self, alloc: Global, key: &[u8], value: &[u8]) -> Result<(), AllocError>
        ensures { OnOk result (self.new ≡ with_assignment self.old key.now value.now) }
    {
        if key == b"WantedBy".as_slice() {
            return self.wanted_by.assign(alloc, value);
        }
        if key == b"RequiredBy".as_slice() {
            return self.required_by.assign(alloc, value);
        }
        if key == b"UpheldBy".as_slice() {
            return self.upheld_by.assign(alloc, value);
        }
        if key == b"Alias".as_slice() {
            return self.alias.assign(alloc, value);
        }
        if key == b"Also".as_slice() {
            return self.also.add(alloc, value);
        }
        if key == b"DefaultInstance".as_slice() {
            self.default_instance = if value.is_empty() {
                None
            } else {
                Some(Word::from_slice(alloc, value)?)
            };
        }
        Ok(())
    }
}
