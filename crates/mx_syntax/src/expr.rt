//! Expressions, those of Python that a formula can use. Each chain is one part with a list, so that depth comes from brackets alone.
use mx_list::list::List;
use mx_list::shared::Shared;
use mx_value::label::Label;
use mx_value::value::Value;

/// What compares two parts of a chain of comparisons.
#[derive(Clone, Copy, Debug, PartialEq, Eq)]
pub enum CmpOp {
    /// `<`
    Lt,
    /// `<=`
    Le,
    /// `>`
    Gt,
    /// `>=`
    Ge,
    /// `==`
    Eq,
    /// `!=`
    Ne,
    /// `in`
    In,
    /// `not in`
    NotIn,
}

/// What joins a part to a sum.
#[derive(Clone, Copy, Debug, PartialEq, Eq)]
pub enum SumOp {
    Plus,
    Minus,
}

/// What joins a part to a product.
#[derive(Clone, Copy, Debug, PartialEq, Eq)]
pub enum ProductOp {
    /// `*`
    Times,
    /// `/`
    Over,
    /// `//`
    Floor,
    /// `%`, the remainder with the sign of the divisor
    Rem,
}

/// A sign before a part.
#[derive(Clone, Copy, Debug, PartialEq, Eq)]
pub enum Sign {
    Plus,
    Minus,
}

/// An expression. A part of a chain that has no further parts is that part itself, and brackets round one leave no trace.
#[cycle(tree)]
#[derive(PartialEq, Eq, Drop)]
pub enum Expr {
    /// A literal, never a tuple.
    Lit(Value),
    /// A local or a name that is looked up.
    Name(Label),
    Tuple(List<Expr>),
    /// `v if t else w if u else z`: at least one arm, each with its value and its test, and the last value.
    Cond {
        arms: List<Arm>,
        last: Shared<Expr>,
    },
    /// Two parts or more.
    Or(List<Expr>),
    /// Two parts or more.
    And(List<Expr>),
    /// So many `not` before a part, at least one.
    Not {
        count: u32,
        of: Shared<Expr>,
    },
    /// A chain of comparisons, each between two neighbours. Each part is computed once.
    Compare {
        first: Shared<Expr>,
        rest: List<Comparison>,
    },
    /// Parts joined from the left by `+` and `-`.
    Sum {
        first: Shared<Expr>,
        rest: List<SumPart>,
    },
    /// Parts joined from the left by `*`, `/`, `//` and `%`.
    Product {
        first: Shared<Expr>,
        rest: List<ProductPart>,
    },
    /// Signs before a part, in the order of the text.
    Signed {
        signs: List<Sign>,
        of: Shared<Expr>,
    },
    /// Parts joined by `**`. They are computed from the left and joined from the right.
    Power {
        first: Shared<Expr>,
        rest: List<PowerPart>,
    },
    /// A part with calls, subscripts and attributes behind it, in the order of the text.
    Post {
        of: Shared<Expr>,
        trailers: List<Trailer>,
    },
}

/// An arm of a conditional: the value where the test holds.
#[cycle(tree)]
#[derive(PartialEq, Eq, Drop)]
pub struct Arm {
    pub value: Expr,
    pub test: Expr,
}

/// A further part of a chain of comparisons.
#[cycle(tree)]
#[derive(PartialEq, Eq, Drop)]
pub enum Comparison {
    Op(CmpOp, Expr),
    /// `is None`
    IsNone,
    /// `is not None`
    IsNotNone,
}

/// A further part of a sum.
#[cycle(tree)]
#[derive(PartialEq, Eq, Drop)]
pub struct SumPart {
    pub op: SumOp,
    pub of: Expr,
}

/// A further part of a product.
#[cycle(tree)]
#[derive(PartialEq, Eq, Drop)]
pub struct ProductPart {
    pub op: ProductOp,
    pub of: Expr,
}

/// A further part of a power. Its signs apply to the power of this part with all parts to its right.
#[cycle(tree)]
#[derive(PartialEq, Eq, Drop)]
pub struct PowerPart {
    pub signs: List<Sign>,
    pub of: Expr,
}

/// What stands behind a part.
#[cycle(tree)]
#[derive(PartialEq, Eq, Drop)]
pub enum Trailer {
    /// `(..)`
    Call(Args),
    /// `[..]`, with at least one subscript
    Index(List<Expr>),
    /// `.name`
    Attr(Label),
}

/// The arguments of a call.
#[cycle(tree)]
#[derive(PartialEq, Eq, Drop)]
pub enum Args {
    List(List<Expr>),
    /// One generator: `element for name in over if test`.
    Gen {
        element: Shared<Expr>,
        name: Label,
        over: Shared<Expr>,
        test: Option<Shared<Expr>>,
    },
}
