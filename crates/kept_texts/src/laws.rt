//! What holds of the texts of histories: each function does nothing, and its contract is the law.
ghost use Rattle.kept_texts.specs.Laws.{HeadersAreRead, RunsAreRead, EndsAreRead, TextsAreRead, CallLinesAreLines, LinesAreCallLines};

/// A header, and the first and the last line of a run, are read as the words for which they are
/// written, and no other line is read as these words.
pub fn lines_are_read_back()
    ensures headers { HeadersAreRead }
    ensures runs { RunsAreRead }
    ensures ends { EndsAreRead }
{}

/// The text that is written for a tree of at most 65,536 entries, a header, and runs of the lines
/// of calls, is read as these, if it has at most 2,000,000 lines after `== calls`.
pub fn texts_are_read_back()
    ensures { TextsAreRead }
{}

/// The lines that `KeptText::push_run` accepts are lines of calls, each with its end, so that what
/// it writes is read back. It accepts all such lines.
pub fn accepted_lines_are_lines()
    ensures lines { CallLinesAreLines }
    ensures all { LinesAreCallLines }
{}
