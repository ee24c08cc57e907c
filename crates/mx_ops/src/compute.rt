//! Arithmetic of two numbers, and what is computed with one.
ghost use Rattle.std.specs.Prelude.{◌≡◌, pos, neg_ℤ, unsigned_abs, ◌^◌, ◌≤◌, ◌*ℤ◌, ◌∷◌, []};
ghost use Rattle.std.specs.Prelude.{int_div};
ghost use Rattle.mx_value.specs.Fixed.{one, fixed_root, and_then};
ghost use Rattle.mx_value.specs.Rounding.{half_even};
ghost use Rattle.mx_value.specs.declared.value.Value.TheVariants as value;
ghost use Rattle.mx_ops.specs.Numbers.{to_decimal};
ghost use Rattle.mx_ops.specs.Answers.{whole, decimal};
ghost use Rattle.mx_ops.specs.Arithmetic.{of_pair, of_numbers};
ghost use Rattle.mx_ops.specs.Builtins as spec;
ghost use Rattle.mx_ops.specs.Builtins.{place_value};

use crate::answer::{decimal_answer, whole_answer};
use crate::decimal::compute_mixed;
use crate::number::{Arithmetic, Number, Pair, number_of, pair_of};
use crate::whole::compute_wholes;
use mx_value::fault::FaultKind;
use mx_value::fixed::{Fixed, NumFault};
use mx_value::rounding::div_half_even;
use mx_value::value::Value;

/// The raw number of 1.0.
const ONE: i128 = 1_000_000_000;

/// What is computed with two numbers.
pub fn compute_pair(op: Arithmetic, pair: Pair) -> Result<Value, FaultKind>
    ensures { result ≡ of_pair op (Some pair) }
{
    match pair {
        Pair::Wholes(a, b) => compute_wholes(op, a, b),
        Pair::Mixed(x, y) => decimal_answer(compute_mixed(op, x, y)),
    }
}

/// What is computed with two values. TypeMismatch comes exactly where one is no number.
pub fn compute(op: Arithmetic, a: &Value, b: &Value) -> Result<Value, FaultKind>
    ensures { result ≡ of_numbers op a.now b.now }
{
    match pair_of(a, b) {
        Some(pair) => compute_pair(op, pair),
        None => Err(FaultKind::TypeMismatch),
    }
}

/// The number with a minus sign.
pub fn negate(number: Number) -> Result<Value, FaultKind>
    ensures { result ≡ spec.negated number }
{
    match number {
        Number::Whole(n) => whole_answer(n.checked_neg()),
        Number::Decimal(x) => Ok(Value::Fix(opposite(x))),
    }
}

fn opposite(x: Fixed) -> Fixed
    ensures { result ≡ neg_ℤ x }
{
    Fixed::from_raw(-x.raw()).unwrap()
}

/// The number without its sign.
pub fn size(number: Number) -> Result<Value, FaultKind>
    ensures { result ≡ spec.sized number }
{
    match number {
        Number::Whole(n) => whole_answer(n.checked_abs()),
        Number::Decimal(x) => Ok(Value::Fix(distance(x))),
    }
}

fn distance(x: Fixed) -> Fixed
    ensures { result ≡ pos (unsigned_abs x) }
{
    if x.raw() < 0 { opposite(x) } else { x }
}

/// The number as a value.
pub fn value_of(number: Number) -> Value
    ensures { result ≡ spec.value_of number }
{
    match number {
        Number::Whole(n) => Value::Int(n),
        Number::Decimal(x) => Value::Fix(x),
    }
}

/// The nearest whole number, and the even one of two that are equally near.
pub fn round(number: Number) -> Value
    ensures { result ≡ spec.rounded number }
{
    match number {
        Number::Whole(n) => Value::Int(n),
        Number::Decimal(x) => Value::Int(nearest(x)),
    }
}

fn nearest(x: Fixed) -> i64
    ensures { result ≡ half_even x one }
{
    div_half_even(x.raw(), ONE) as i64
}

/// The number rounded half to even at so many decimals, 0 to 9.
pub fn round_at(number: Number, places: i64) -> Result<Value, FaultKind>
    ensures { result ≡ spec.round_at number places }
{
    if 0 <= places && places <= 9 {
        return Ok(rounded_at(number, places as u32));
    }
    return Err(FaultKind::Domain);
}

fn rounded_at(number: Number, places: u32) -> Value
    requires { places ≤ 9 }
    ensures { result ≡ spec.rounded_at number places }
{
    match number {
        Number::Whole(n) => Value::Int(n),
        Number::Decimal(x) => Value::Fix(nearest_at(x, places)),
    }
}

fn nearest_at(x: Fixed, places: u32) -> Fixed
    requires { places ≤ 9 }
    ensures { result ≡ half_even x (place_value places) *ℤ place_value places }
{
    let unit = 10i128.pow(9 - places);
    Fixed::from_raw(div_half_even(x.raw(), unit) * unit).unwrap()
}

/// The number cut toward 0.
pub fn cut(number: Number) -> Value
    ensures { result ≡ spec.cut number }
{
    match number {
        Number::Whole(n) => Value::Int(n),
        Number::Decimal(x) => Value::Int(whole_part(x)),
    }
}

fn whole_part(x: Fixed) -> i64
    ensures { result ≡ int_div x one }
{
    (x.raw() / ONE) as i64
}

/// The number as a decimal one.
pub fn to_fixed(number: Number) -> Result<Value, FaultKind>
    ensures { result ≡ decimal (to_decimal number) }
{
    decimal_answer(number.to_decimal())
}

/// The root of a degree.
pub fn root_of(number: Number, degree: i64) -> Result<Value, FaultKind>
    ensures { result ≡ spec.root_of number degree }
{
    match number.to_decimal() {
        Ok(x) => decimal_answer(root(x, degree)),
        Err(fault) => decimal_answer(Err(fault)),
    }
}

fn root(x: Fixed, degree: i64) -> Result<Fixed, NumFault>
    ensures { result ≡ spec.root x degree }
{
    match u32::try_from(degree) {
        Ok(n) => x.root(n),
        Err(_) => Err(NumFault::Domain),
    }
}
