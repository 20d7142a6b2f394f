//! Differences and units as JSON, an object a line: docs/JSON.md.

use link_tree::Change;
use root_json::{Summary, push_change, push_summary, push_unit_file};
use std::alloc::{AllocError, Global};
use unit_lists::{PresetWord, UnitLine};

/// How a root differs.
pub fn changes_text(alloc: Global, changes: &[Change]) -> Result<Vec<u8>, AllocError> {
    let mut out = Vec::new(alloc);
    for change in changes {
        push_change(&mut out, change)?;
    }
    Ok(out)
}

/// How an `apply` ended.
pub fn applied_text(
    alloc: Global,
    changes: &[Change],
    dry_run: bool,
) -> Result<Vec<u8>, AllocError> {
    let summary = Summary {
        calls: 0,
        refused: 0,
        dry_run,
        made: !dry_run,
    };
    let mut out = Vec::new(alloc);
    push_summary(&mut out, summary, changes)?;
    Ok(out)
}

/// Unit files with their states and presets.
pub fn units_text(alloc: Global, lines: &[UnitLine]) -> Result<Vec<u8>, AllocError> {
    let mut out = Vec::new(alloc);
    for line in lines {
        let preset = line.preset.map(PresetWord::text);
        push_unit_file(&mut out, &line.name, line.state, preset)?;
    }
    Ok(out)
}
