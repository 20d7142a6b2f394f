//! Laws of all names: each function does nothing, and its contract is the law.
ghost use Rattle.unit_name.specs.Laws.{PartsAreRead, PartsAreUnique, NamesHaveNoFault, InstanceIsSet, TemplateIsShared};
ghost use Rattle.unit_name.specs.Words.{WordsAreExpanded};

/// The parts that make up a name are those that `kind`, `instance` and `unit_type` return, and no
/// others.
pub fn parts_are_read()
    ensures read { PartsAreRead }
    ensures unique { PartsAreUnique }
{}

/// A text matches the grammar of names exactly if it has no fault.
pub fn names_have_no_fault()
    ensures { NamesHaveNoFault }
{}

/// A change of instance keeps the rest of a name, and can be undone.
pub fn instances_keep_the_rest()
    ensures set { InstanceIsSet }
    ensures shared { TemplateIsShared }
{}

/// A word expands to a text exactly if it consists of pieces whose values make up the text: bytes
/// other than `%`, each with itself as its value, and specifiers, each with its value for the name.
/// No other word is expanded.
pub fn words_are_expanded_by_pieces()
    ensures { WordsAreExpanded }
{}
