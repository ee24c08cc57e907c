//! Tuples: joined, and what is picked out of them or made of their items.
ghost use Rattle.std.specs.Prelude.{◌≡◌, ◌++◌, ◌+◌, ◌-◌, ◌≤◌, pos, nat_lt, nat_le, IfOk, MatchResult};
ghost use Rattle.mx_value.specs.declared.value.Value.TheVariants as made_value;
ghost use Rattle.mx_value.specs.Nesting.{nesting_of};
ghost use Rattle.std.specs.List.{list_all};
ghost use Rattle.mx_value.specs.Size.{size_of};
ghost use Rattle.mx_ops.specs.Answers.{Answers, made, is_allowed};
ghost use Rattle.mx_ops.specs.Builtins as spec;
ghost use Rattle.mx_ops.specs.Order.{test_of};

use crate::compute::compute;
use crate::number::Arithmetic;
use crate::op::OpRefusal;
use crate::order::{Comparison, compare_ordered};
use mx_list::items::Items;
use mx_value::copies::copy_items;
use mx_value::fault::FaultKind;
use mx_value::nesting::nesting_of_value;
use mx_value::size::size_of_items;
use mx_value::value::Value;
use std::alloc::{AllocError, Global};

/// The greatest size of a value.
const MOST_SIZE: u64 = 1_000_000;

/// The greatest nesting of a value.
const MOST_NESTING: u32 = 64;

/// The best of some values: the first one, or the last of those that each stand to the best so
/// far as is asked. Domain comes exactly where there is none.
pub fn best(asked: Comparison, values: &[Value]) -> Result<&Value, FaultKind>
    ensures { MatchResult result (λ v. spec.best (test_of asked) values.now ≡ Ok v.now)
        (λ kind. spec.best (test_of asked) values.now ≡ Err kind) }
{
    let Some(first) = values.get(0) else {
        return Err(FaultKind::Domain);
    };
    let mut best = first;
    for i in 1..values.len() {
        match compare_ordered(&values[i], best) {
            Some(order) => {
                if asked.holds(order) {
                    best = &values[i];
                }
            }
            None => return Err(FaultKind::TypeMismatch),
        }
    }
    return Ok(best);
}

/// A copy of the best of some values.
pub fn pick(alloc: Global, asked: Comparison, values: &[Value]) -> Result<Value, OpRefusal>
    ensures { Answers result (spec.best (test_of asked) values.now) }
{
    match best(asked, values) {
        Ok(value) => match value.copy(alloc) {
            Ok(copy) => Ok(copy),
            Err(_) => Err(OpRefusal::NoMemory),
        },
        Err(kind) => Err(OpRefusal::Fault(kind)),
    }
}

/// The sum of numbers, added from the left onto the whole number 0. The first fault stands.
pub fn sum(values: &[Value]) -> Result<Value, FaultKind>
    ensures { result ≡ spec.sum_from (Ok (made_value.Int (pos 0))) values.now }
{
    let mut total = Value::Int(0);
    for value in values {
        match compute(Arithmetic::Add, &total, value) {
            Ok(next) => total = next,
            Err(kind) => return Err(kind),
        }
    }
    return Ok(total);
}

/// Two tuples in one. TooLarge comes before any memory is taken.
pub fn join_tuples(alloc: Global, xs: &Items<Value>, ys: &Items<Value>) -> Result<Value, OpRefusal>
    ensures { Answers result (made (made_value.Tup (xs.now ++ ys.now))) }
{
    if !is_joined_allowed(xs, ys) {
        return Err(OpRefusal::Fault(FaultKind::TooLarge));
    }
    let joined = append(alloc, xs, ys)?;
    return Ok(Value::Tup(joined));
}

fn append(alloc: Global, xs: &Items<Value>, ys: &Items<Value>) -> Result<Items<Value>, AllocError>
    ensures { IfOk result (λ items. items ≡ xs.now ++ ys.now) }
{
    let mut items = copy_items(alloc, xs)?;
    items.reserve(ys.len())?;
    for y in ys.as_slice() {
        items.push(y.copy(alloc)?)?;
    }
    Ok(items)
}

/// Whether two tuples in one are small enough.
fn is_joined_allowed(xs: &Items<Value>, ys: &Items<Value>) -> bool
    ensures { result ≡ is_allowed (made_value.Tup (xs.now ++ ys.now)) }
{
    is_size_allowed(xs, ys) && is_nesting_allowed(xs, ys)
}

fn is_size_allowed(xs: &Items<Value>, ys: &Items<Value>) -> bool
    ensures { result ≡ nat_le (size_of (made_value.Tup (xs.now ++ ys.now))) 1_000_000 }
{
    size_of_items(xs).saturating_add(size_of_items(ys)) < MOST_SIZE
}

fn is_nesting_allowed(xs: &Items<Value>, ys: &Items<Value>) -> bool
    ensures { result ≡ nat_le (nesting_of (made_value.Tup (xs.now ++ ys.now))) 64 }
{
    are_shallow(xs.as_slice()) && are_shallow(ys.as_slice())
}

/// Whether a tuple of the values is nested no deeper than is allowed.
fn are_shallow(values: &[Value]) -> bool
    ensures { result ≡ list_all (λ v. nat_lt (nesting_of v) 64) values.now }
{
    values.iter().all(|v| nesting_of_value(v) < MOST_NESTING)
}
