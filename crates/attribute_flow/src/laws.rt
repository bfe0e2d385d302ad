//! What the rules of copies say of what operators give.
ghost use Rattle.attribute_flow.specs.CopyLaws.{CopiesLaw, CopyTypesLaw, CustomCopiesLaw, TraceLaw};

/// Where an attribute of what an operator gives has a source by its clauses, each tuple that it gives is caused
/// by a tuple with the same value, and no marker causes one. Both have one type. Copies compose along a chain.
pub fn copies_law()
    ensures copies { CopiesLaw }
    ensures custom { CustomCopiesLaw }
    ensures types { CopyTypesLaw }
    ensures traced { TraceLaw }
{}
