use crate::signatures::Signatures;
use spl_tree::{Code, Slot};
use spl_value::{Boxed, Items, Name, Schema, SplType};

/// A variable that can be named.
pub struct Variable {
    pub name: Name,
    pub kind: SplType,
    /// Whether it may be changed.
    pub mutable: bool,
}

impl Drop for Variable {
    fn drop(self) {
        let Variable {
            name: _,
            kind: _,
            mutable: _,
        } = self;
    }
}

/// A port whose tuple can be named, with its attributes.
pub struct Port {
    pub name: Name,
    pub schema: Schema,
}

impl Drop for Port {
    fn drop(self) {
        let Port { name: _, schema: _ } = self;
    }
}

/// A function that can be called: the types of its parameters, and of its result where it has one.
pub struct Signature {
    pub name: Name,
    pub parameters: Items<SplType>,
    pub result: Option<SplType>,
}

impl Drop for Signature {
    fn drop(self) {
        let Signature {
            name: _,
            parameters: _,
            result: _,
        } = self;
    }
}

/// A function whose types aren't any. A call of it is refused as they are.
pub struct Unresolved {
    pub name: Name,
    pub refusal: CheckRefusal,
}

impl Drop for Unresolved {
    fn drop(self) {
        let Unresolved {
            name: _,
            refusal: _,
        } = self;
    }
}

/// A `$` parameter of the composite in whose body an expression stands: what it means there, or the
/// refusal of that, which comes where the parameter is used.
pub struct Dollar {
    /// Without the `$`.
    pub name: Name,
    pub found: Result<Typed, CheckRefusal>,
}

impl Drop for Dollar {
    fn drop(self) {
        let Dollar { name: _, found: _ } = self;
    }
}

/// What an expression may name. Variables stand in the order of their declarations, those of the
/// state before local ones; of several with one name the last is meant. Of functions and of `$`
/// parameters the first is.
pub struct Scope {
    pub vars: Items<Variable>,
    pub ports: Items<Port>,
    pub functions: Signatures,
    /// Functions that aren't among those.
    pub unresolved: Items<Unresolved>,
    pub dollars: Items<Dollar>,
    /// Whether the expression stands where a marker has come, so that it may ask which.
    pub punct: bool,
}

impl Drop for Scope {
    fn drop(self) {
        let Scope {
            vars: _,
            ports: _,
            functions: _,
            unresolved: _,
            dollars: _,
            punct: _,
        } = self;
    }
}

impl Scope {
    ghost use Rattle.std.specs.Prelude.{◌≡◌};

    /// The `$` parameters alone.
    pub fn into_dollars(self) -> Items<Dollar>
        ensures { result ≡ self.dollars }
    {
        let Scope {
            vars: _,
            ports: _,
            functions: _,
            unresolved: _,
            dollars,
            punct: _,
        } = self;
        dollars
    }
}

/// The type and the code of an expression, each in a box: both become parts of greater ones.
#[derive(Drop)]
pub struct Typed {
    pub kind: Boxed<SplType>,
    pub code: Boxed<Code<Slot>>,
}

/// Why a graph is refused by the rules of types and clauses.
#[derive(Clone, Copy)]
pub enum CheckError {
    /// A name has no meaning, or is an attribute of two ports.
    Unknown,
    /// A type or a form isn't the wanted one.
    Mismatch,
    /// What is changed isn't mutable.
    NotMutable,
    /// A call fits no rule, or a statement stands where it may not.
    WrongCall,
    /// A type or a clause that this profile leaves out.
    LeftOut,
    /// A function with a result whose body may end without one.
    NoReturn,
    /// A parameter that an operator needs isn't there.
    MissingParameter,
    /// A parameter or a clause that an operator doesn't have, or one that is given twice.
    ExtraParameter,
    /// A window that isn't one of the operator's, or the lack of one that it needs.
    BadWindow,
    /// An attribute of an output that has no value, that isn't there, or that is assigned twice.
    BadOutput,
    /// A number of ports that an operator doesn't have.
    PortCount,
    /// A file whose rows would have a list, a map or a tuple.
    NoTextForm,
}

/// A refusal by these rules: the byte of the program at which it comes, and the name that it is about,
/// where it is about one.
#[derive(Drop)]
pub struct CheckRefusal {
    pub error: CheckError,
    pub at: u32,
    pub name: Option<Name>,
}
