//! Laws of words: each function does nothing, and its contract is the law.
ghost use Rattle.script_words.specs.Laws.{EscapedIsRead, EscapedIsWord, NumbersAreDigits};

/// Any bytes can be written in one word: if they are escaped byte by byte, reading the word returns
/// them.
pub fn any_text_is_a_word()
    ensures read { EscapedIsRead }
    ensures word { EscapedIsWord }
{}

/// A number is written in at least one decimal digit, leading zeros are allowed, and it is below
/// 2^32.
pub fn numbers_are_digits()
    ensures { NumbersAreDigits }
{}
