//! Ranges of whole numbers.
ghost use Rattle.std.specs.Prelude.{◌≡◌, ◌≢◌, ◌<◌, ◌≤◌, ◌^◌, ◌+ℤ◌, ◌*ℤ◌, ℕ, pos, unsigned_abs, FitsSigned, IfOk};
ghost use Rattle.std.specs.Int.{w64};
ghost use Rattle.mx_value.specs.declared.value.Value.TheVariants as made_value;
ghost use Rattle.mx_ops.specs.Answers.{Answers};
ghost use Rattle.mx_ops.specs.Ranges as spec;

use crate::op::OpRefusal;
use mx_list::items::Items;
use mx_value::fault::FaultKind;
use mx_value::value::Value;
use std::alloc::{AllocError, Global};

/// The greatest count of numbers in a range: with the tuple itself its size is 1,000,000.
const MOST_NUMBERS: u128 = 999_999;

/// The whole numbers from one on, in steps, as long as they lie before the end. Domain comes
/// exactly for steps of 0, and else TooLarge, before any memory is taken.
pub fn make_range(alloc: Global, from: i64, to: i64, step: i64) -> Result<Value, OpRefusal>
    ensures { Answers result (spec.range from to step) }
{
    if step == 0 {
        return Err(OpRefusal::Fault(FaultKind::Domain));
    }
    let count = range_length(from, to, step);
    if count > MOST_NUMBERS {
        return Err(OpRefusal::Fault(FaultKind::TooLarge));
    }
    match numbers_from(alloc, from, step, count as usize) {
        Ok(numbers) => Ok(Value::Tup(numbers)),
        Err(_) => Err(OpRefusal::NoMemory),
    }
}

/// How many numbers there are.
fn range_length(from: i64, to: i64, step: i64) -> u128
    requires { step ≢ pos 0 }
    ensures { result ≡ spec.range_length from to step }
{
    if step > 0 {
        steps(i128::from(to) - i128::from(from), step.unsigned_abs())
    } else {
        steps(i128::from(from) - i128::from(to), step.unsigned_abs())
    }
}

/// How many steps fit into the way, the last one begun.
fn steps(way: i128, step: u64) -> u128
    requires step { 0 < step }
    requires way { unsigned_abs way < 2 ^ 65 }
    ensures { result ≡ spec.steps way step }
{
    if way < 0 {
        return 0;
    }
    (way.unsigned_abs() + (u128::from(step) - 1)) / u128::from(step)
}

fn numbers_from(
    alloc: Global,
    from: i64,
    step: i64,
    count: usize,
) -> Result<Items<Value>, AllocError>
    requires small { count ≤ 999_999 }
    requires fits { (i : ℕ) → i < count → FitsSigned w64 (from +ℤ pos i *ℤ step) }
    ensures { IfOk result (λ items. items ≡ spec.numbers_from from step count) }
{
    let mut numbers = Items::with_capacity(alloc, count)?;
    for i in 0..count {
        numbers.push(Value::Int(number_at(from, step, i)))?;
    }
    Ok(numbers)
}

fn number_at(from: i64, step: i64, i: usize) -> i64
    requires small { i ≤ 999_999 }
    requires fits { FitsSigned w64 (from +ℤ pos i *ℤ step) }
    ensures { result ≡ from +ℤ pos i *ℤ step }
{
    (i128::from(from) + i as i128 * i128::from(step)) as i64
}
