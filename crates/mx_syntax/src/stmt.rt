//! Statements, formulas and parameter lists.
use crate::expr::Expr;
use mx_list::list::List;
use mx_value::label::Label;
use mx_value::value::Value;

/// What a statement that changes a local does to it.
#[derive(Clone, Copy, Debug, PartialEq, Eq)]
pub enum ArithOp {
    Add,
    Sub,
    Mul,
}

/// A statement.
#[cycle(body)]
#[derive(PartialEq, Eq, Drop)]
pub enum Stmt {
    Pass,
    /// `return`, with a value or without one.
    Return(Option<Expr>),
    /// `return` with the display that says what the item of a space is.
    ReturnItem(List<ItemEntry>),
    /// `x = e`
    Assign(Label, Expr),
    /// `x += e`, `x -= e` or `x *= e`
    Change(Label, ArithOp, Expr),
    /// The arms of `if` and each `elif`, at least one, and the statements of `else` where it is there.
    If {
        arms: List<IfArm>,
        other: Option<List<Stmt>>,
    },
    /// Runs the body for each item of a tuple.
    For {
        name: Label,
        over: Expr,
        body: List<Stmt>,
    },
}

/// An arm of an `if`: the statements that run where the test holds.
#[cycle(body)]
#[derive(PartialEq, Eq, Drop)]
pub struct IfArm {
    pub test: Expr,
    pub body: List<Stmt>,
}

/// An entry of the display that an item is made of.
#[derive(PartialEq, Eq, Drop)]
pub enum ItemEntry {
    /// References of the item, by name.
    Refs(List<(Label, Expr)>),
    /// The space that the item derives from.
    Base(Expr),
}

/// A parameter, with its default where it has one.
#[derive(PartialEq, Eq, Drop)]
pub struct Param {
    pub name: Label,
    pub default: Option<Value>,
}

/// The formula of cells. The one-line form `(..) = e` is a body of one `Return`.
#[derive(PartialEq, Eq, Drop)]
pub struct Formula {
    pub params: List<Param>,
    pub body: List<Stmt>,
}

/// The parameters of a space, with the formula of its items where there is one.
#[derive(PartialEq, Eq, Drop)]
pub struct Params {
    pub params: List<Param>,
    pub body: Option<List<Stmt>>,
}
