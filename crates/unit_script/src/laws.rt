//! The law of scripts: the function does nothing, and its contract is the law.
ghost use Rattle.unit_script.specs.Laws.{ScriptIsLines, LastLineNeedsNoEnd, LongLineIsTold, OneLineMoreIsTold};

/// A script results in the calls of its lines in order, or in its first bad line. The last one
/// needs no LF. A line of more than 65,536 bytes is bad, and so is anything after the 2,000,000th
/// line.
pub fn a_script_is_its_lines()
    ensures lines { ScriptIsLines }
    ensures last { LastLineNeedsNoEnd }
    ensures long { LongLineIsTold }
    ensures many { OneLineMoreIsTold }
{}
