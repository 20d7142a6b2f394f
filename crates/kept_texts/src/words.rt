//! What the header of a history and the first line of a run say.
ghost use Rattle.std.specs.Prelude.{◌≡◌, IfOk};

use crate::label::Label;
use crate::time::Time;
use std::alloc::AllocError;

/// What the header of a history says.
#[derive(Debug, Drop)]
pub struct Header {
    /// Random bytes that tell histories apart.
    pub id: [u8; 16],
    /// The path of the root.
    pub root: Label,
}

/// What the first line of a run says.
#[derive(Debug, Drop)]
pub struct RunWords {
    pub time: Time,
    /// Who made the run.
    pub login: Label,
    /// The name and version of the program that made it.
    pub program: Label,
    /// The version of the rules by which it was made.
    pub rules: u32,
    /// Whether the run is what others did to the root.
    pub outside: bool,
}

impl Header {
    /// An equal header. Fails only if memory runs out.
    pub fn copy(&self) -> Result<Header, AllocError>
        ensures { IfOk result (λ header. header ≡ self.now) }
    {
        Ok(Header {
            id: self.id,
            root: self.root.copy()?,
        })
    }
}

impl RunWords {
    /// Equal words. Fails only if memory runs out.
    pub fn copy(&self) -> Result<RunWords, AllocError>
        ensures { IfOk result (λ words. words ≡ self.now) }
    {
        Ok(RunWords {
            time: self.time,
            login: self.login.copy()?,
            program: self.program.copy()?,
            rules: self.rules,
            outside: self.outside,
        })
    }
}
