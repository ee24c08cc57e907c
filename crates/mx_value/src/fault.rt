//! Faults: why a formula gave no value.

/// Why a formula gave no value.
#[derive(Clone, Copy, Debug, PartialEq, Eq, Hash, Drop)]
pub enum FaultKind {
    /// A division, a floor division or a remainder by 0.
    ZeroDivision,
    /// A number out of range.
    Overflow,
    /// An operand of a kind that the operator does not take.
    TypeMismatch,
    /// A subscript that is not there.
    NoIndex,
    /// An argument outside an operator's domain.
    Domain,
    /// A value, a nesting or an address past its limit.
    TooLarge,
    /// A name that is found nowhere.
    NoName,
    /// A call of what can't be called.
    NotCallable,
    /// A call with the wrong number of arguments.
    WrongCountInside,
    /// None, where the cells do not allow it.
    NoneReturned,
    /// A local that was read before it was set.
    UnsetLocal,
    /// A parameter formula's answer that makes no item space.
    BadItem,
}
