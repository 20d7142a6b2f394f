//! Laws of all lines: each function does nothing, and its contract is the law.
ghost use Rattle.line_laws.specs.FileLines.{LinesAreJoined};
ghost use Rattle.line_laws.specs.InstallLines.{InstallLinesAreRead};
ghost use Rattle.line_laws.specs.PresetLines.{PresetFilesAreRead, PresetLinesAreRead};

/// The lines of a file, physical, joined and logical, are those that are read, and no others.
pub fn lines_are_joined()
    ensures { LinesAreJoined }
{}

/// What is read from a unit file is what its lines ask for in `[Install]`: the words of each list,
/// and the last value of `DefaultInstance=`.
pub fn install_lines_are_read()
    ensures { InstallLinesAreRead }
{}

/// A line of a preset file has a rule exactly if its words are `enable`, a pattern and the names of
/// instances, or if it is `disable` or `ignore` with a pattern after it. Any other line has none.
/// The rules of a file are those of its lines, in that order.
pub fn preset_lines_are_read()
    ensures lines { PresetLinesAreRead }
    ensures files { PresetFilesAreRead }
{}
