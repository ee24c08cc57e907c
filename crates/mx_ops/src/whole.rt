//! Arithmetic of two whole numbers.
ghost use Rattle.std.specs.Prelude.{◌≡◌, ◌≢◌, ◌≤◌, pos, ◌+ℤ◌, ◌-ℤ◌, ◌*ℤ◌, unsigned_abs, neg_ℤ};
ghost use Rattle.std.specs.Int.{int_pow};
ghost use Rattle.mx_value.specs.Rounding.{floor_of, rest_of};
ghost use Rattle.mx_value.specs.Fixed.{fixed_div, fixed_pow, and_then};
ghost use Rattle.mx_ops.specs.declared.number.Number.TheVariants.{Whole};
ghost use Rattle.mx_ops.specs.Numbers.{to_decimal};
ghost use Rattle.mx_ops.specs.declared.number.Arithmetic.TheVariants.{Add, Sub, Mul, Div, FloorDiv, Rem, Pow};
ghost use Rattle.mx_ops.specs.Answers.{whole, sized};
ghost use Rattle.mx_ops.specs.Arithmetic.{of_wholes};

use crate::answer::{decimal_answer, whole_answer};
use crate::number::{Arithmetic, Number};
use mx_value::fault::FaultKind;
use mx_value::fixed::{Fixed, NumFault};
use mx_value::rounding::{div_floor, div_half_even, mod_floor};
use mx_value::value::Value;

/// The raw number of 1.0.
const ONE: i128 = 1_000_000_000;

/// What is computed with two whole numbers, with 64 bits or a fault.
#[inline(always)]
pub fn compute_wholes(op: Arithmetic, a: i64, b: i64) -> Result<Value, FaultKind>
    ensures { result ≡ of_wholes op a b }
{
    match op {
        Arithmetic::Add => add(a, b),
        Arithmetic::Sub => subtract(a, b),
        Arithmetic::Mul => multiply(a, b),
        Arithmetic::Div => divide(a, b),
        Arithmetic::FloorDiv => floor_divide(a, b),
        Arithmetic::Rem => remainder(a, b),
        Arithmetic::Pow => power(a, b),
    }
}

#[inline(always)]
fn add(a: i64, b: i64) -> Result<Value, FaultKind>
    ensures { result ≡ whole (a +ℤ b) }
{
    whole_answer(a.checked_add(b))
}

#[inline(always)]
fn subtract(a: i64, b: i64) -> Result<Value, FaultKind>
    ensures { result ≡ whole (a -ℤ b) }
{
    whole_answer(a.checked_sub(b))
}

#[inline(always)]
fn multiply(a: i64, b: i64) -> Result<Value, FaultKind>
    ensures { result ≡ whole (a *ℤ b) }
{
    whole_answer(a.checked_mul(b))
}

fn floor_divide(a: i64, b: i64) -> Result<Value, FaultKind>
    ensures { result ≡ of_wholes FloorDiv a b }
{
    if b == 0 {
        return Err(FaultKind::ZeroDivision);
    }
    floor_answer(a, b)
}

fn floor_answer(a: i64, b: i64) -> Result<Value, FaultKind>
    requires { b ≢ pos 0 }
    ensures { result ≡ whole (floor_of a b) }
{
    whole_answer(i64::try_from(div_floor(i128::from(a), i128::from(b))).ok())
}

fn remainder(a: i64, b: i64) -> Result<Value, FaultKind>
    ensures { result ≡ of_wholes Rem a b }
{
    if b == 0 {
        return Err(FaultKind::ZeroDivision);
    }
    Ok(Value::Int(rest(a, b)))
}

/// The remainder, of the divisor's sign.
fn rest(a: i64, b: i64) -> i64
    requires { b ≢ pos 0 }
    ensures { result ≡ rest_of a b }
{
    mod_floor(i128::from(a), i128::from(b)) as i64
}

/// The exact quotient, rounded half to even at 9 decimals.
fn divide(a: i64, b: i64) -> Result<Value, FaultKind>
    ensures { result ≡ of_wholes Div a b }
{
    decimal_answer(quotient(a, b))
}

fn quotient(a: i64, b: i64) -> Result<Fixed, NumFault>
    ensures { result ≡ fixed_div a b }
{
    if b == 0 {
        return Err(NumFault::ZeroDivision); // before Overflow
    }
    Fixed::from_raw(div_half_even(i128::from(a) * ONE, i128::from(b))).ok_or(NumFault::Overflow)
}

/// A whole number to the power of another. That to a negative one is a decimal number.
fn power(a: i64, b: i64) -> Result<Value, FaultKind>
    ensures { result ≡ of_wholes Pow a b }
{
    if b >= 0 {
        return whole_answer(whole_power(a, b as u64));
    }
    decimal_answer(negative_power(a, b))
}

fn negative_power(a: i64, b: i64) -> Result<Fixed, NumFault>
    ensures { result ≡ and_then (to_decimal (Whole a)) (λ x. fixed_pow x b) }
{
    match Number::Whole(a).to_decimal() {
        Ok(x) => x.pow(b),
        Err(fault) => Err(fault),
    }
}

/// The power, where it has 64 bits.
fn whole_power(a: i64, n: u64) -> Option<i64>
    ensures { sized result ≡ whole (int_pow a n) }
{
    if n < 64 {
        return a.checked_pow(n as u32);
    }
    return long_power(a, n);
}

/// From the 64th on only the powers of -1, 0 and 1 have 64 bits, and those go by whether the
/// exponent is even.
fn long_power(a: i64, n: u64) -> Option<i64>
    requires { 64 ≤ n }
    ensures { sized result ≡ whole (int_pow a n) }
{
    if a.unsigned_abs() > 1 {
        return None;
    }
    return a.checked_pow((62 + n % 2) as u32);
}
