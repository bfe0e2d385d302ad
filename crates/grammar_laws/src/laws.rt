//! How phrases begin, which pieces they are made of, and where tokens are too deep.
ghost use Rattle.std.specs.Prelude.{IsOkAnd, codes};
ghost use Rattle.spl_tree.specs.Tokens.{tokens};
ghost use Rattle.spl_tree.specs.Units.{SpellsProgram};
ghost use Rattle.spl_tree.specs.examples.Units.{type_of_two, nearest_else, alias_alone};
ghost use Rattle.grammar_laws.specs.Ranges.{RangesLaw};
ghost use Rattle.grammar_laws.specs.Forms.{DefinitionFormLaw, FormLaw, TypeFormLaw};
ghost use Rattle.grammar_laws.specs.ExpressionLines.{ListLines, OperatorLines, PrimaryLineLaw};
ghost use Rattle.grammar_laws.specs.Lines.{FirstArmLaw, NextArmLaw, PartLines, StatementLineLaw, TypeLineLaw};
ghost use Rattle.grammar_laws.specs.Relations.{ExpressionLaw, ProgramLaw};
ghost use Rattle.grammar_laws.specs.UnitLines.{ClauseLines, DefinitionLines, InvocationLines, PortLines};
ghost use Rattle.grammar_laws.specs.Weighing.{WholeListLaw};

/// A type, a statement and a definition have a form that their first token allows: what begins with a reserved word
/// is of no form of another one.
pub fn forms_law()
    ensures types { TypeFormLaw }
    ensures statements { FormLaw }
    ensures definitions { DefinitionFormLaw }
{}

/// Tokens spell a type or a statement exactly where they are the pieces of its line in the grammar: the reserved words,
/// symbols and names of its form, with tokens between them that spell its parts.
pub fn lines_law()
    ensures types { TypeLineLaw }
    ensures statements { StatementLineLaw }
    ensures first_arm { FirstArmLaw }
    ensures next_arm { NextArmLaw }
    ensures parts { PartLines }
{}

/// The same of expressions, with the operators by how tight they bind.
pub fn expression_lines_law()
    ensures primary { PrimaryLineLaw }
    ensures lists { ListLines }
    ensures operators { OperatorLines }
{}

/// The same of the definitions of a program, of its invocations and of their clauses.
pub fn unit_lines_law()
    ensures clauses { ClauseLines }
    ensures ports { PortLines }
    ensures invocations { InvocationLines }
    ensures definitions { DefinitionLines }
{}

/// A program is too deep at the first token that weighs too much.
pub fn weighing_law()
    ensures whole { WholeListLaw }
{}

/// The relations by which reading is proved, one for each kind of phrase, spell the same expressions and programs as the
/// lines of the grammar.
pub fn relations_law()
    ensures expressions { ExpressionLaw }
    ensures programs { ProgramLaw }
{}

/// Each number of an expression that a program's tokens spell is one of its type.
pub fn ranges_law()
    ensures { RangesLaw }
{}

/// Units that the tokens of some bytes spell: attributes after the name of a type, an `else` that
/// belongs to the nearest `if`, and an invocation with an alias alone.
pub fn units_on_literals()
    ensures attributes { IsOkAnd (tokens (codes "type T=int8 a,U b;")) (λ ts. SpellsProgram type_of_two ts.list) }
    ensures nearest { IsOkAnd (tokens (codes "void f(){if(a)if(b)return;else return;}")) (λ ts. SpellsProgram nearest_else ts.list) }
    ensures alias { IsOkAnd (tokens (codes "composite M{graph()as S=F(A){config x:y;}}")) (λ ts. SpellsProgram alias_alone ts.list) }
{}
