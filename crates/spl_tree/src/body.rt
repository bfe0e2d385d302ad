use crate::code::{Code, Selector, Slot};
use spl_value::{Items, SplType};

/// What is changed: a variable, or what is taken of it in turn.
pub struct Place {
    /// The variable's place in the scope, from 0.
    pub variable: u32,
    pub takings: Items<Selector<Code<Slot>>>,
}

impl Drop for Place {
    fn drop(self) {
        let Place {
            variable: _,
            takings: _,
        } = self;
    }
}

/// How a place is changed.
#[derive(Drop)]
pub enum Change<C> {
    /// An assignment: the place holds the value, and a key that its last step doesn't find is added.
    /// `a += b` puts `a + b`, in which the place is read.
    Put(C),
    /// `appendM`: the list gets the value at its end.
    Append(C),
    /// `removeM`: the map loses the key.
    Remove(C),
    /// `clearM`: the list or the map loses all that it has.
    Clear,
}

/// A typed statement.
pub enum Statement {
    Block(Body),
    /// A new variable with its first value. Its place is after those of all other variables. It ends
    /// with the row of statements in which it is declared.
    Declare(Code<Slot>),
    Change(Place, Change<Code<Slot>>),
    /// A call that the language has built in, whose value isn't used.
    Evaluate(Code<Slot>),
    /// A call of the function at that place of the scope, with its arguments. A value that it gives
    /// isn't used.
    Call(u32, Items<Code<Slot>>),
    /// The statements after the first condition that is true, or else the others.
    If(Items<(Code<Slot>, Body)>, Body),
    /// The statements again and again, while the condition is true.
    While(Code<Slot>, Body),
    /// The statements once for each element of a list, or for each key of a map by ascending order. The
    /// element or key is the value of a new variable.
    For(Code<Slot>, Body),
    /// The end of the nearest loop around it.
    Break,
    /// The next turn of the nearest loop around it.
    Continue,
    /// The end of the body, with the value that it returns where it returns one.
    Return(Option<Code<Slot>>),
    /// A tuple on the output port at that place.
    Submit(u32, Code<Slot>),
    /// A window marker on that output port.
    SubmitWindow(u32),
}

impl Drop for Statement {
    fn drop(self) {
        match self {
            Statement::Block(_) => {}
            Statement::Declare(_) => {}
            Statement::Change(_, _) => {}
            Statement::Evaluate(_) => {}
            Statement::Call(_, _) => {}
            Statement::If(_, _) => {}
            Statement::While(_, _) => {}
            Statement::For(_, _) => {}
            Statement::Break => {}
            Statement::Continue => {}
            Statement::Return(_) => {}
            Statement::Submit(_, _) => {}
            Statement::SubmitWindow(_) => {}
        }
    }
}

/// Statements one after another, as between the braces of a block, or one without braces.
pub type Body = Items<Statement>;

/// A function of the program: the types of its parameters, that of its result where it has one, and
/// its body. The first variables of the body are the parameters, in their order.
pub struct Function {
    pub parameters: Items<SplType>,
    pub result: Option<SplType>,
    pub body: Body,
}

impl Drop for Function {
    fn drop(self) {
        let Function {
            parameters: _,
            result: _,
            body: _,
        } = self;
    }
}

/// The functions of a program. The code of a call has the function's place here.
pub type Functions = Items<Function>;
