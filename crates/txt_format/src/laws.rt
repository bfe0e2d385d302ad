//! What is written is read back, as no other tuple.
ghost use Rattle.txt_format.specs.TxtLaws.{FittingLaw, OneLineLaw, OneTupleLaw, WrittenLaw};

/// The text of a tuple that fits its schema spells that tuple, where the attributes' names are words.
pub fn written_law()
    ensures { WrittenLaw }
{}

/// The text of a tuple that fits its schema is one line, where the attributes' names are words.
pub fn one_line_law()
    ensures { OneLineLaw }
{}

/// What a line spells is a tuple that fits the schema.
pub fn fitting_law()
    ensures { FittingLaw }
{}

/// A line spells one tuple of a schema at most.
pub fn one_tuple_law()
    ensures { OneTupleLaw }
{}
