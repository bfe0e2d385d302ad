use spl_value::{Boxed, IntKind, Items, Value};

/// A typed expression. Each name in it is a place in the expression's scope, and each operator and
/// call whose result depends on its operands' type has that type. Parentheses are gone. `N` is how
/// names are given.
pub enum Code<N> {
    /// A number, a boolean or a text; or the default of a variable's type.
    Literal(Value),
    Name(N),
    List(Items<Code<N>>),
    /// The keys and values of a map literal, in the order of the text. Of pairs with one key the
    /// last counts.
    Map(Items<(Code<N>, Code<N>)>),
    /// The fields of a tuple literal, in the order of the text: the place of each in the tuple,
    /// from 0, and its value.
    Tuple(Items<(u32, Code<N>)>),
    /// Members, elements and values at keys that are taken in turn of what comes first.
    Select(Boxed<Code<N>>, Items<Selector<Code<N>>>),
    /// Operators and casts in front of an operand, the outermost first.
    Unary(Items<UnaryCode>, Boxed<Code<N>>),
    Binary(BinaryCode, Boxed<Code<N>>, Boxed<Code<N>>),
    /// `condition ? first : second`.
    Conditional(Boxed<Code<N>>, Boxed<Code<N>>, Boxed<Code<N>>),
    BuiltIn(BuiltIn, Items<Code<N>>),
    /// A call of the function at that place of the scope, with its arguments.
    Call(u32, Items<Code<N>>),
    /// Whether the marker that came is this one.
    IsMarker(Marker),
    /// Whether it isn't.
    IsNotMarker(Marker),
}

impl<N: Drop> Drop for Code<N> {
    fn drop(self) {
        match self {
            Code::Literal(_) => {}
            Code::Name(_) => {}
            Code::List(_) => {}
            Code::Map(_) => {}
            Code::Tuple(_) => {}
            Code::Select(_, _) => {}
            Code::Unary(_, _) => {}
            Code::Binary(_, _, _) => {}
            Code::Conditional(_, _, _) => {}
            Code::BuiltIn(_, _) => {}
            Code::Call(_, _) => {}
            Code::IsMarker(_) => {}
            Code::IsNotMarker(_) => {}
        }
    }
}

impl<N: Drop> Code<N> {
    ghost use Rattle.std.specs.Prelude.{◌≡◌};
    ghost use Rattle.spl_tree.specs.declared.code.Code.TheViews.{out-Code};
    ghost use Rattle.spl_tree.specs.Selections.{selection};

    /// What members, elements or values are taken of, with these in turn, where it takes any.
    pub fn into_selection(self) -> Option<(Boxed<Code<N>>, Items<Selector<Code<N>>>)>
        ensures { result ≡ selection (out-Code N self) }
    {
        match self {
            Code::Select(base, selectors) => Some((base, selectors)),
            _ => None,
        }
    }
}

/// What a name means in a scope, by places from 0.
#[derive(Clone, Copy)]
pub enum Slot {
    /// A variable.
    Variable(u32),
    /// An attribute of the tuple at a port of the scope.
    Attribute { port: u32, attribute: u32 },
    /// The tuple at a port of the scope.
    Port(u32),
}

/// What is taken of a value.
pub enum Selector<C> {
    /// The attribute of a tuple at that place, from 0.
    Member(u32),
    /// The element of a list at an index.
    Element(C),
    /// The value of a map at a key.
    AtKey(C),
}

impl<C: Drop> Drop for Selector<C> {
    fn drop(self) {
        match self {
            Selector::Member(_) => {}
            Selector::Element(_) => {}
            Selector::AtKey(_) => {}
        }
    }
}

/// An operator in front of its operand.
#[derive(Clone, Copy)]
pub enum UnaryCode {
    /// `!`
    Not,
    /// `-` of an integer of that type.
    Negate(IntKind),
    /// `~` of an integer of that type.
    Complement(IntKind),
    /// A cast of an integer to that type.
    ToInteger(IntKind),
    /// A cast of an integer or a boolean to `rstring`.
    ToText,
}

/// An operator between two operands.
#[derive(Clone, Copy)]
pub enum BinaryCode {
    /// `* / % + - & ^ |` of two integers of that type.
    Integers(IntegerOperator, IntKind),
    /// `+` of two texts.
    Join,
    /// `< <= > >=` of two integers or two texts.
    Order(OrderOperator),
    /// `==`
    Equal,
    /// `!=`
    NotEqual,
    /// `&&`
    And,
    /// `||`
    Or,
    /// `in` of a value and a list.
    InList,
    /// `in` of a key and a map.
    InMap,
}

#[derive(Clone, Copy)]
pub enum IntegerOperator {
    Multiply,
    Divide,
    Remainder,
    Add,
    Subtract,
    BitAnd,
    BitXor,
    BitOr,
}

#[derive(Clone, Copy)]
pub enum OrderOperator {
    Less,
    LessOrEqual,
    Greater,
    GreaterOrEqual,
}

/// A call that the language has built in and that gives a value.
#[derive(Clone, Copy)]
pub enum BuiltIn {
    Length,
    Size,
    Has,
    Abs(IntKind),
    Min,
    Max,
    Substring,
}

/// A marker of a stream.
#[derive(Clone, Copy)]
pub enum Marker {
    Window,
    Final,
}

/// The names of the calls that the language has built in, and of that which asks for the marker.
#[derive(Clone, Copy)]
pub enum CallName {
    Length,
    Size,
    Has,
    AppendM,
    RemoveM,
    ClearM,
    Abs,
    Min,
    Max,
    Substring,
    CurrentPunct,
}
