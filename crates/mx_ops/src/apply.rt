//! What an operator gives for its operands.
ghost use Rattle.std.specs.Prelude.{◌≡◌, ◌∷◌, ◌<◌, [], length};
ghost use Rattle.mx_ops.specs.Answers.{Answers};
ghost use Rattle.mx_ops.specs.Table.{gives, AtMostOneRow};
ghost use Rattle.mx_ops.specs.Ranges.{UpToTheEnd, DownToTheEnd};

use crate::answer::mismatch;
use crate::binary::apply_to_two;
use crate::number::whole_of;
use crate::op::OpRefusal;
use crate::order::Comparison;
use crate::range::make_range;
use crate::tuple::pick;
use crate::unary::apply_to_one;
use mx_list::items::Items;
use mx_syntax::op::Op;
use mx_value::value::Value;
use std::alloc::Global;

/// What an operator gives. Operands that no row of its table takes, also a wrong number of them,
/// are a TypeMismatch. Whole and decimal numbers take no memory.
pub fn apply(alloc: Global, op: Op, operands: &[Value]) -> Result<Value, OpRefusal>
    ensures { Answers result (gives op operands.now) }
{
    match operands {
        [] => apply_to_none(alloc, op),
        [a] => apply_to_one(alloc, op, a),
        [a, b] => apply_to_two(alloc, op, operands, a, b),
        _ => apply_to_more(alloc, op, operands),
    }
}

fn apply_to_none(alloc: Global, op: Op) -> Result<Value, OpRefusal>
    ensures { Answers result (gives op []) }
{
    match op {
        Op::Tuple => Ok(Value::Tup(Items::new(alloc))),
        _ => mismatch(),
    }
}

/// What an operator gives for three operands or more.
fn apply_to_more(alloc: Global, op: Op, operands: &[Value]) -> Result<Value, OpRefusal>
    requires { 2 < length operands.now }
    ensures { Answers result (gives op operands.now) }
{
    match op {
        Op::Min => pick(alloc, Comparison::Lt, operands),
        Op::Max => pick(alloc, Comparison::Gt, operands),
        Op::Range => range_of(alloc, operands),
        _ => mismatch(),
    }
}

fn range_of(alloc: Global, operands: &[Value]) -> Result<Value, OpRefusal>
    requires { 2 < length operands.now }
    ensures { Answers result (gives Op.Range operands.now) }
{
    match operands {
        [a, b, c] => range_in_steps(alloc, a, b, c),
        _ => mismatch(),
    }
}

fn range_in_steps(alloc: Global, a: &Value, b: &Value, c: &Value) -> Result<Value, OpRefusal>
    ensures { Answers result (gives Op.Range (a.now ∷ b.now ∷ c.now ∷ [])) }
{
    let Some(from) = whole_of(a) else {
        return mismatch();
    };
    let Some(to) = whole_of(b) else {
        return mismatch();
    };
    let Some(step) = whole_of(c) else {
        return mismatch();
    };
    return make_range(alloc, from, to, step);
}

/// The laws of the table of operators: at most one row takes some operands, and a range has the
/// numbers that lie before its end. Does nothing when it runs.
pub fn laws()
    ensures one_row { AtMostOneRow }
    ensures up { UpToTheEnd }
    ensures down { DownToTheEnd }
{}
