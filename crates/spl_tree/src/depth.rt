//! How deep the parts of a program may stand in one another where they are worked on by recursion: the
//! stack is memory.

/// How many others an expression may stand inside where it is parsed, and so a type and a statement.
/// Brackets alone nest at most 200 deep, by their weight.
pub const MOST_NESTED: u32 = 256;

/// The greatest height of the tree of an expression, in which a leaf has 0. Also how many types and names may
/// stand inside one another in a type, how many heads are followed outwards from an invocation, how long a row
/// of defaults of `$` parameters may be, and how deep the code of such a parameter's value.
pub const MOST_HEIGHT: u32 = 1_000;

/// How many codes and statements may stand inside one another while they are evaluated and run, those of
/// called functions too, and how many steps lead to a part of a variable that is changed. So many codes, or
/// half as many calls, take less than 3 MiB of the stack. An expression may have a deeper code, where a `$`
/// parameter in it has a deep value.
pub const MOST_EVALUATED: u32 = 1_500;
