//! The functions that a formula can always call, and their names.
ghost use Rattle.std.specs.Prelude.{◌≡◌};
ghost use Rattle.mx_ops.specs.Names as spec;
ghost use Rattle.mx_ops.specs.Names.{NamesAreFound, FoundByName};

use mx_syntax::op::Op;

/// A function that a formula can always call.
#[derive(Clone, Copy, Debug, PartialEq, Eq, Hash, Drop)]
pub enum Builtin {
    Abs,
    All,
    Any,
    Fixed,
    Int,
    Len,
    Max,
    Min,
    Nroot,
    Range,
    Round,
    Str,
    Sum,
    Tuple,
}

/// The function of a name, which is its own in small letters.
pub fn builtin_of(name: &[u8]) -> Option<Builtin>
    ensures { result ≡ spec.builtin_of name.now }
{
    if name == "abs".as_bytes() {
        return Some(Builtin::Abs);
    }
    if name == "all".as_bytes() {
        return Some(Builtin::All);
    }
    if name == "any".as_bytes() {
        return Some(Builtin::Any);
    }
    if name == "fixed".as_bytes() {
        return Some(Builtin::Fixed);
    }
    if name == "int".as_bytes() {
        return Some(Builtin::Int);
    }
    if name == "len".as_bytes() {
        return Some(Builtin::Len);
    }
    if name == "max".as_bytes() {
        return Some(Builtin::Max);
    }
    return later_builtin_of(name);
}

fn later_builtin_of(name: &[u8]) -> Option<Builtin>
    ensures { result ≡ spec.later_builtin_of name.now }
{
    if name == "min".as_bytes() {
        return Some(Builtin::Min);
    }
    if name == "nroot".as_bytes() {
        return Some(Builtin::Nroot);
    }
    if name == "range".as_bytes() {
        return Some(Builtin::Range);
    }
    if name == "round".as_bytes() {
        return Some(Builtin::Round);
    }
    if name == "str".as_bytes() {
        return Some(Builtin::Str);
    }
    if name == "sum".as_bytes() {
        return Some(Builtin::Sum);
    }
    if name == "tuple".as_bytes() {
        return Some(Builtin::Tuple);
    }
    return None;
}

impl Builtin {
    /// The operator that a call of the function applies to its arguments.
    pub fn op(self) -> Op
        ensures { result ≡ spec.op_of self }
    {
        match self {
            Builtin::Abs => Op::Abs,
            Builtin::All => Op::All,
            Builtin::Any => Op::Any,
            Builtin::Fixed => Op::Fixed,
            Builtin::Int => Op::Int,
            Builtin::Len => Op::Len,
            Builtin::Max => Op::Max,
            Builtin::Min => Op::Min,
            Builtin::Nroot => Op::Nroot,
            Builtin::Range => Op::Range,
            Builtin::Round => Op::Round,
            Builtin::Str => Op::Str,
            Builtin::Sum => Op::Sum,
            Builtin::Tuple => Op::Tuple,
        }
    }
}

/// Each function is found by its name, and by no other. Does nothing when it runs.
pub fn builtin_laws()
    ensures found { NamesAreFound }
    ensures named { FoundByName }
{}
