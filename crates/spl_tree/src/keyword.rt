ghost use Rattle.std.specs.Prelude.{◌≡◌};
ghost use Rattle.spl_tree.specs.Words.{int_word, left_out_word, keyword_word};

use spl_value::IntKind;

/// A reserved word: a word that is no name.
#[derive(Clone, Copy)]
pub enum Keyword {
    Namespace,
    Type,
    Composite,
    Public,
    Output,
    Input,
    Param,
    Expression,
    Graph,
    Config,
    Logic,
    State,
    /// `onTuple`
    OnTuple,
    /// `onPunct`
    OnPunct,
    Window,
    Stream,
    As,
    List,
    Map,
    Tuple,
    Boolean,
    Rstring,
    /// `int8` to `uint64`
    Int(IntKind),
    Void,
    Mutable,
    If,
    Else,
    While,
    For,
    In,
    Break,
    Continue,
    Return,
    Submit,
    True,
    False,
    LeftOut(LeftOut),
}

/// A type of SPL that this profile leaves out. Its word is reserved.
#[derive(Clone, Copy)]
pub enum LeftOut {
    Float32,
    Float64,
    Decimal32,
    Decimal64,
    Decimal128,
    Complex32,
    Complex64,
    Timestamp,
    Ustring,
    Blob,
    Xml,
    Enum,
    Optional,
    Set,
}

/// All reserved words, each once.
pub const KEYWORDS: [Keyword; 57] = [
    Keyword::Namespace,
    Keyword::Type,
    Keyword::Composite,
    Keyword::Public,
    Keyword::Output,
    Keyword::Input,
    Keyword::Param,
    Keyword::Expression,
    Keyword::Graph,
    Keyword::Config,
    Keyword::Logic,
    Keyword::State,
    Keyword::OnTuple,
    Keyword::OnPunct,
    Keyword::Window,
    Keyword::Stream,
    Keyword::As,
    Keyword::List,
    Keyword::Map,
    Keyword::Tuple,
    Keyword::Boolean,
    Keyword::Rstring,
    Keyword::Int(IntKind::I8),
    Keyword::Int(IntKind::I16),
    Keyword::Int(IntKind::I32),
    Keyword::Int(IntKind::I64),
    Keyword::Int(IntKind::U8),
    Keyword::Int(IntKind::U16),
    Keyword::Int(IntKind::U32),
    Keyword::Int(IntKind::U64),
    Keyword::Void,
    Keyword::Mutable,
    Keyword::If,
    Keyword::Else,
    Keyword::While,
    Keyword::For,
    Keyword::In,
    Keyword::Break,
    Keyword::Continue,
    Keyword::Return,
    Keyword::Submit,
    Keyword::True,
    Keyword::False,
    Keyword::LeftOut(LeftOut::Float32),
    Keyword::LeftOut(LeftOut::Float64),
    Keyword::LeftOut(LeftOut::Decimal32),
    Keyword::LeftOut(LeftOut::Decimal64),
    Keyword::LeftOut(LeftOut::Decimal128),
    Keyword::LeftOut(LeftOut::Complex32),
    Keyword::LeftOut(LeftOut::Complex64),
    Keyword::LeftOut(LeftOut::Timestamp),
    Keyword::LeftOut(LeftOut::Ustring),
    Keyword::LeftOut(LeftOut::Blob),
    Keyword::LeftOut(LeftOut::Xml),
    Keyword::LeftOut(LeftOut::Enum),
    Keyword::LeftOut(LeftOut::Optional),
    Keyword::LeftOut(LeftOut::Set),
];

fn int_word(kind: IntKind) -> &'static [u8]
    ensures { result.now ≡ int_word kind }
{
    match kind {
        IntKind::I8 => b"int8",
        IntKind::I16 => b"int16",
        IntKind::I32 => b"int32",
        IntKind::I64 => b"int64",
        IntKind::U8 => b"uint8",
        IntKind::U16 => b"uint16",
        IntKind::U32 => b"uint32",
        IntKind::U64 => b"uint64",
    }
}

impl LeftOut {
    /// The word itself.
    pub fn word(self) -> &'static [u8]
        ensures { result.now ≡ left_out_word self }
    {
        match self {
            LeftOut::Float32 => b"float32",
            LeftOut::Float64 => b"float64",
            LeftOut::Decimal32 => b"decimal32",
            LeftOut::Decimal64 => b"decimal64",
            LeftOut::Decimal128 => b"decimal128",
            LeftOut::Complex32 => b"complex32",
            LeftOut::Complex64 => b"complex64",
            LeftOut::Timestamp => b"timestamp",
            LeftOut::Ustring => b"ustring",
            LeftOut::Blob => b"blob",
            LeftOut::Xml => b"xml",
            LeftOut::Enum => b"enum",
            LeftOut::Optional => b"optional",
            LeftOut::Set => b"set",
        }
    }
}

impl Keyword {
    /// The word itself.
    pub fn word(self) -> &'static [u8]
        ensures { result.now ≡ keyword_word self }
    {
        match self {
            Keyword::Namespace => b"namespace",
            Keyword::Type => b"type",
            Keyword::Composite => b"composite",
            Keyword::Public => b"public",
            Keyword::Output => b"output",
            Keyword::Input => b"input",
            Keyword::Param => b"param",
            Keyword::Expression => b"expression",
            Keyword::Graph => b"graph",
            Keyword::Config => b"config",
            Keyword::Logic => b"logic",
            Keyword::State => b"state",
            Keyword::OnTuple => b"onTuple",
            Keyword::OnPunct => b"onPunct",
            Keyword::Window => b"window",
            Keyword::Stream => b"stream",
            Keyword::As => b"as",
            Keyword::List => b"list",
            Keyword::Map => b"map",
            Keyword::Tuple => b"tuple",
            Keyword::Boolean => b"boolean",
            Keyword::Rstring => b"rstring",
            Keyword::Int(kind) => int_word(kind),
            Keyword::Void => b"void",
            Keyword::Mutable => b"mutable",
            Keyword::If => b"if",
            Keyword::Else => b"else",
            Keyword::While => b"while",
            Keyword::For => b"for",
            Keyword::In => b"in",
            Keyword::Break => b"break",
            Keyword::Continue => b"continue",
            Keyword::Return => b"return",
            Keyword::Submit => b"submit",
            Keyword::True => b"true",
            Keyword::False => b"false",
            Keyword::LeftOut(left_out) => left_out.word(),
        }
    }
}
