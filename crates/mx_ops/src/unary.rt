//! What the operators give for one operand.
ghost use Rattle.std.specs.Prelude.{◌≡◌, ◌∷◌, [], length, pos};
ghost use Rattle.mx_ops.specs.Answers.{Answers};
ghost use Rattle.mx_ops.specs.Builtins as spec;
ghost use Rattle.mx_ops.specs.Order.{test_of};
ghost use Rattle.mx_ops.specs.Answers.{whole};
ghost use Rattle.mx_ops.specs.Rows.{answer, text_row};
ghost use Rattle.mx_ops.specs.Table.{gives, best_rows, count};

use crate::answer::{answered, flag_answer, mismatch, whole_answer};
use crate::compute::{cut, negate, round, size, to_fixed, value_of};
use crate::number::{number_of, whole_of};
use crate::op::OpRefusal;
use crate::order::Comparison;
use crate::parts::{bytes_of, items_of};
use crate::range::make_range;
use crate::text::text_of;
use crate::truth::{all_true, any_true, truth};
use crate::tuple::{pick, sum};
use mx_syntax::op::Op;
use mx_value::copies::copy_items;
use mx_value::fault::FaultKind;
use mx_value::value::Value;
use std::alloc::Global;

/// What an operator gives for one operand.
pub fn apply_to_one(alloc: Global, op: Op, a: &Value) -> Result<Value, OpRefusal>
    ensures { Answers result (gives op (a.now ∷ [])) }
{
    match op {
        Op::Neg => negate_value(a),
        Op::Plus => keep_number(a),
        Op::Not => deny(a),
        Op::Abs => size_of(a),
        Op::Min => pick_from(alloc, Comparison::Lt, a),
        Op::Max => pick_from(alloc, Comparison::Gt, a),
        Op::Sum => sum_of(a),
        Op::Len => length_of(a),
        Op::Round => round_value(a),
        Op::Int => cut_value(a),
        Op::Fixed => fix_value(a),
        Op::Any => any_of(a),
        Op::All => all_of(a),
        Op::Tuple => copy_tuple(alloc, a),
        Op::Str => write(alloc, a),
        Op::Range => range_to(alloc, a),
        Op::Add | Op::Sub | Op::Mul | Op::Div | Op::FloorDiv | Op::Rem | Op::Pow => mismatch(),
        Op::Eq | Op::Ne | Op::Lt | Op::Le | Op::Gt | Op::Ge => mismatch(),
        Op::In | Op::NotIn | Op::Index | Op::Nroot => mismatch(),
    }
}

fn negate_value(a: &Value) -> Result<Value, OpRefusal>
    ensures { Answers result (gives Op.Neg (a.now ∷ [])) }
{
    match number_of(a) {
        Some(x) => answered(negate(x)),
        None => mismatch(),
    }
}

fn keep_number(a: &Value) -> Result<Value, OpRefusal>
    ensures { Answers result (gives Op.Plus (a.now ∷ [])) }
{
    match number_of(a) {
        Some(x) => Ok(value_of(x)),
        None => mismatch(),
    }
}

fn deny(a: &Value) -> Result<Value, OpRefusal>
    ensures { Answers result (gives Op.Not (a.now ∷ [])) }
{
    match truth(a) {
        Ok(holds) => Ok(Value::Flag(!holds)),
        Err(_) => mismatch(),
    }
}

fn size_of(a: &Value) -> Result<Value, OpRefusal>
    ensures { Answers result (gives Op.Abs (a.now ∷ [])) }
{
    match number_of(a) {
        Some(x) => answered(size(x)),
        None => mismatch(),
    }
}

fn pick_from(alloc: Global, asked: Comparison, a: &Value) -> Result<Value, OpRefusal>
    ensures { Answers result (answer (best_rows asked) (a.now ∷ [])) }
{
    match items_of(a) {
        Some(items) => pick(alloc, asked, items.as_slice()),
        None => mismatch(),
    }
}

fn sum_of(a: &Value) -> Result<Value, OpRefusal>
    ensures { Answers result (gives Op.Sum (a.now ∷ [])) }
{
    match items_of(a) {
        Some(items) => answered(sum(items.as_slice())),
        None => mismatch(),
    }
}

fn count(length: usize) -> Result<Value, FaultKind>
    ensures { result ≡ whole (pos length) }
{
    whole_answer(i64::try_from(length).ok())
}

fn length_of(a: &Value) -> Result<Value, OpRefusal>
    ensures { Answers result (gives Op.Len (a.now ∷ [])) }
{
    match items_of(a) {
        Some(items) => answered(count(items.len())),
        None => length_of_text(a),
    }
}

fn length_of_text(a: &Value) -> Result<Value, OpRefusal>
    ensures { Answers result (answer (text_row (λ bytes. count (length bytes)) ∷ []) (a.now ∷ [])) }
{
    match bytes_of(a) {
        Some(bytes) => answered(count(bytes.len())),
        None => mismatch(),
    }
}

fn round_value(a: &Value) -> Result<Value, OpRefusal>
    ensures { Answers result (gives Op.Round (a.now ∷ [])) }
{
    match number_of(a) {
        Some(x) => Ok(round(x)),
        None => mismatch(),
    }
}

fn cut_value(a: &Value) -> Result<Value, OpRefusal>
    ensures { Answers result (gives Op.Int (a.now ∷ [])) }
{
    match number_of(a) {
        Some(x) => Ok(cut(x)),
        None => mismatch(),
    }
}

fn fix_value(a: &Value) -> Result<Value, OpRefusal>
    ensures { Answers result (gives Op.Fixed (a.now ∷ [])) }
{
    match number_of(a) {
        Some(x) => answered(to_fixed(x)),
        None => mismatch(),
    }
}

fn any_of(a: &Value) -> Result<Value, OpRefusal>
    ensures { Answers result (gives Op.Any (a.now ∷ [])) }
{
    match items_of(a) {
        Some(items) => answered(flag_answer(any_true(items.as_slice()))),
        None => mismatch(),
    }
}

fn all_of(a: &Value) -> Result<Value, OpRefusal>
    ensures { Answers result (gives Op.All (a.now ∷ [])) }
{
    match items_of(a) {
        Some(items) => answered(flag_answer(all_true(items.as_slice()))),
        None => mismatch(),
    }
}

fn copy_tuple(alloc: Global, a: &Value) -> Result<Value, OpRefusal>
    ensures { Answers result (gives Op.Tuple (a.now ∷ [])) }
{
    match items_of(a) {
        Some(items) => match copy_items(alloc, items) {
            Ok(copy) => Ok(Value::Tup(copy)),
            Err(_) => Err(OpRefusal::NoMemory),
        },
        None => mismatch(),
    }
}

fn write(alloc: Global, a: &Value) -> Result<Value, OpRefusal>
    ensures { Answers result (gives Op.Str (a.now ∷ [])) }
{
    text_of(alloc, a)
}

fn range_to(alloc: Global, a: &Value) -> Result<Value, OpRefusal>
    ensures { Answers result (gives Op.Range (a.now ∷ [])) }
{
    match whole_of(a) {
        Some(to) => make_range(alloc, 0, to, 1),
        None => mismatch(),
    }
}
