//! What the operators give for two operands.
ghost use Rattle.std.specs.Prelude.{◌≡◌, ◌∷◌, []};
ghost use Rattle.mx_ops.specs.Answers.{Answers, made};
ghost use Rattle.mx_ops.specs.Builtins as spec;
ghost use Rattle.mx_ops.specs.Rows.{answer};
ghost use Rattle.mx_ops.specs.Table.{gives, arithmetic_rows, order_rows, index_text_rows, join_rows, join_tuple_rows};

use crate::answer::{answered, decimal_answer, mismatch};
use crate::compute::{root_of, round_at};
use crate::decimal::compute_mixed;
use crate::index::{byte_at, item_at};
use crate::number::{Arithmetic, Pair, number_of, pair_of, whole_of};
use crate::op::OpRefusal;
use crate::order::{Comparison, compare_ordered, equal, is_among};
use crate::parts::{bytes_of, items_of};
use crate::range::make_range;
use crate::text::join_texts;
use crate::tuple::{join_tuples, pick};
use crate::whole::compute_wholes;
use mx_syntax::op::Op;
use mx_value::value::Value;
use std::alloc::Global;

/// What an operator gives for two operands, which stand behind each other in `operands`.
pub fn apply_to_two(
    alloc: Global,
    op: Op,
    operands: &[Value],
    a: &Value,
    b: &Value,
) -> Result<Value, OpRefusal>
    requires { operands.now ≡ a.now ∷ b.now ∷ [] }
    ensures { Answers result (gives op (a.now ∷ b.now ∷ [])) }
{
    match op {
        Op::Add => add(alloc, a, b),
        Op::Sub => arithmetic(Arithmetic::Sub, a, b),
        Op::Mul => arithmetic(Arithmetic::Mul, a, b),
        Op::Div => arithmetic(Arithmetic::Div, a, b),
        Op::FloorDiv => arithmetic(Arithmetic::FloorDiv, a, b),
        Op::Rem => arithmetic(Arithmetic::Rem, a, b),
        Op::Pow => arithmetic(Arithmetic::Pow, a, b),
        Op::Eq => Ok(Value::Flag(equal(a, b))),
        Op::Ne => Ok(Value::Flag(!equal(a, b))),
        Op::Lt => order(Comparison::Lt, a, b),
        Op::Le => order(Comparison::Le, a, b),
        Op::Gt => order(Comparison::Gt, a, b),
        Op::Ge => order(Comparison::Ge, a, b),
        Op::In => seek(a, b),
        Op::NotIn => miss(a, b),
        Op::Index => index(alloc, a, b),
        Op::Min => pick(alloc, Comparison::Lt, operands),
        Op::Max => pick(alloc, Comparison::Gt, operands),
        Op::Round => round_to(a, b),
        Op::Nroot => root(a, b),
        Op::Range => range_between(alloc, a, b),
        Op::Neg | Op::Plus | Op::Not | Op::Abs | Op::Sum | Op::Len => mismatch(),
        Op::Int | Op::Fixed | Op::Any | Op::All | Op::Tuple | Op::Str => mismatch(),
    }
}

/// What is computed with two numbers.
#[inline(always)]
fn arithmetic(op: Arithmetic, a: &Value, b: &Value) -> Result<Value, OpRefusal>
    ensures { Answers result (answer (arithmetic_rows op) (a.now ∷ b.now ∷ [])) }
{
    match pair_of(a, b) {
        Some(Pair::Wholes(m, n)) => answered(compute_wholes(op, m, n)),
        Some(Pair::Mixed(x, y)) => answered(decimal_answer(compute_mixed(op, x, y))),
        None => mismatch(),
    }
}

/// The sum of two numbers, or two texts or two tuples in one.
#[inline(always)]
fn add(alloc: Global, a: &Value, b: &Value) -> Result<Value, OpRefusal>
    ensures { Answers result (gives Op.Add (a.now ∷ b.now ∷ [])) }
{
    match pair_of(a, b) {
        Some(Pair::Wholes(m, n)) => answered(compute_wholes(Arithmetic::Add, m, n)),
        Some(Pair::Mixed(x, y)) => answered(decimal_answer(compute_mixed(Arithmetic::Add, x, y))),
        None => join(alloc, a, b),
    }
}

fn join(alloc: Global, a: &Value, b: &Value) -> Result<Value, OpRefusal>
    ensures { Answers result (answer join_rows (a.now ∷ b.now ∷ [])) }
{
    match bytes_of(a) {
        Some(s) => match bytes_of(b) {
            Some(t) => join_texts(alloc, s, t),
            None => join_as_tuples(alloc, a, b),
        },
        None => join_as_tuples(alloc, a, b),
    }
}

fn join_as_tuples(alloc: Global, a: &Value, b: &Value) -> Result<Value, OpRefusal>
    ensures { Answers result (answer join_tuple_rows (a.now ∷ b.now ∷ [])) }
{
    match items_of(a) {
        Some(xs) => match items_of(b) {
            Some(ys) => join_tuples(alloc, xs, ys),
            None => mismatch(),
        },
        None => mismatch(),
    }
}

#[inline(always)]
fn order(asked: Comparison, a: &Value, b: &Value) -> Result<Value, OpRefusal>
    ensures { Answers result (answer (order_rows asked) (a.now ∷ b.now ∷ [])) }
{
    match compare_ordered(a, b) {
        Some(standing) => Ok(Value::Flag(asked.holds(standing))),
        None => mismatch(),
    }
}

fn seek(a: &Value, b: &Value) -> Result<Value, OpRefusal>
    ensures { Answers result (gives Op.In (a.now ∷ b.now ∷ [])) }
{
    match items_of(b) {
        Some(items) => Ok(Value::Flag(is_among(a, items.as_slice()))),
        None => mismatch(),
    }
}

fn miss(a: &Value, b: &Value) -> Result<Value, OpRefusal>
    ensures { Answers result (gives Op.NotIn (a.now ∷ b.now ∷ [])) }
{
    match items_of(b) {
        Some(items) => Ok(Value::Flag(!is_among(a, items.as_slice()))),
        None => mismatch(),
    }
}

/// The item or byte at a place.
fn index(alloc: Global, a: &Value, b: &Value) -> Result<Value, OpRefusal>
    ensures { Answers result (gives Op.Index (a.now ∷ b.now ∷ [])) }
{
    match items_of(a) {
        Some(items) => match whole_of(b) {
            Some(at) => item_at(alloc, items, at),
            None => index_text(alloc, a, b),
        },
        None => index_text(alloc, a, b),
    }
}

fn index_text(alloc: Global, a: &Value, b: &Value) -> Result<Value, OpRefusal>
    ensures { Answers result (answer index_text_rows (a.now ∷ b.now ∷ [])) }
{
    match bytes_of(a) {
        Some(bytes) => match whole_of(b) {
            Some(at) => byte_at(alloc, bytes, at),
            None => mismatch(),
        },
        None => mismatch(),
    }
}

fn round_to(a: &Value, b: &Value) -> Result<Value, OpRefusal>
    ensures { Answers result (gives Op.Round (a.now ∷ b.now ∷ [])) }
{
    match number_of(a) {
        Some(x) => match whole_of(b) {
            Some(places) => answered(round_at(x, places)),
            None => mismatch(),
        },
        None => mismatch(),
    }
}

fn root(a: &Value, b: &Value) -> Result<Value, OpRefusal>
    ensures { Answers result (gives Op.Nroot (a.now ∷ b.now ∷ [])) }
{
    match number_of(a) {
        Some(x) => match whole_of(b) {
            Some(degree) => answered(root_of(x, degree)),
            None => mismatch(),
        },
        None => mismatch(),
    }
}

fn range_between(alloc: Global, a: &Value, b: &Value) -> Result<Value, OpRefusal>
    ensures { Answers result (gives Op.Range (a.now ∷ b.now ∷ [])) }
{
    match pair_of(a, b) {
        Some(Pair::Wholes(from, to)) => make_range(alloc, from, to, 1),
        Some(Pair::Mixed(_, _)) => mismatch(),
        None => mismatch(),
    }
}
