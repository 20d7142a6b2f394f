//! What standard error says of a history.

use root_access::{print_messages, push_message};
use std::alloc::{AllocError, Global};

/// Lines for standard error, which are printed before the messages of the run.
#[derive(Drop)]
pub struct Notes {
    text: Vec<u8>,
    quiet: bool,
    json: bool,
}

impl Notes {
    /// No lines. If the run must be quiet, only warnings are added; with `--json` each is an
    /// object.
    pub fn new(alloc: Global, quiet: bool, json: bool) -> Notes {
        Notes {
            text: Vec::new(alloc),
            quiet,
            json,
        }
    }

    /// Adds a line, unless the run must be quiet.
    pub fn say(&mut self, line: &str) -> Result<(), AllocError> {
        if self.quiet {
            return Ok(());
        }
        self.warn(line)
    }

    /// Adds a line that is printed in any case.
    pub fn warn(&mut self, line: &str) -> Result<(), AllocError> {
        let alloc = *self.text.allocator();
        push_message(alloc, &mut self.text, line.as_bytes(), 0, self.json)
    }

    /// Forgets the lines.
    pub fn clear(&mut self) {
        self.text.clear();
    }

    /// Prints the lines, and forgets them.
    pub fn print(&mut self, rt: &HostRuntime) {
        print_messages(rt, &self.text);
        self.text.clear();
    }
}
