//! Operators and the functions that a formula can always call.
/// An operator, or a function that a formula can always call.
#[derive(Clone, Copy, Debug, PartialEq, Eq, Drop)]
pub enum Op {
    Add,
    Sub,
    Mul,
    /// The exact quotient, a decimal number.
    Div,
    /// The quotient rounded down.
    FloorDiv,
    /// The remainder of that, with the divisor's sign.
    Rem,
    Pow,
    Neg,
    Plus,
    Not,
    Eq,
    Ne,
    Lt,
    Le,
    Gt,
    Ge,
    In,
    NotIn,
    /// A value and then its subscripts.
    Index,
    Abs,
    Min,
    Max,
    Sum,
    Len,
    Round,
    Int,
    Fixed,
    Nroot,
    Any,
    All,
    Tuple,
    Str,
    Range,
}
