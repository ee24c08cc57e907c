//! Arithmetic of two numbers of which one is decimal.
ghost use Rattle.std.specs.Prelude.{◌≡◌};
ghost use Rattle.mx_ops.specs.Arithmetic.{of_mixed, of_decimals, both, divided, power_to, broken_power};

use crate::number::{Arithmetic, Number};
use mx_value::fixed::{Fixed, NumFault};

/// The raw number of 1.0.
const ONE: i128 = 1_000_000_000;

/// What is computed with two numbers, at least one of them decimal.
pub fn compute_mixed(op: Arithmetic, a: Number, b: Number) -> Result<Fixed, NumFault>
    ensures { result ≡ of_mixed op a b }
{
    match op {
        Arithmetic::Add => compute_both(op, a, b),
        Arithmetic::Sub => compute_both(op, a, b),
        Arithmetic::Mul => compute_both(op, a, b),
        Arithmetic::Div => divide(op, a, b),
        Arithmetic::FloorDiv => divide(op, a, b),
        Arithmetic::Rem => divide(op, a, b),
        Arithmetic::Pow => raise(a, b),
    }
}

fn compute_both(op: Arithmetic, a: Number, b: Number) -> Result<Fixed, NumFault>
    ensures { result ≡ both op a b }
{
    match a.to_decimal() {
        Ok(x) => match b.to_decimal() {
            Ok(y) => compute_decimals(op, x, y),
            Err(fault) => Err(fault),
        },
        Err(fault) => Err(fault),
    }
}

fn compute_decimals(op: Arithmetic, x: Fixed, y: Fixed) -> Result<Fixed, NumFault>
    ensures { result ≡ of_decimals op x y }
{
    match op {
        Arithmetic::Add => x.add(y),
        Arithmetic::Sub => x.sub(y),
        Arithmetic::Mul => x.mul(y),
        Arithmetic::Div => x.div(y),
        Arithmetic::FloorDiv => x.floor_div(y),
        Arithmetic::Rem => x.rem(y),
        Arithmetic::Pow => raise_decimal(x, y),
    }
}

fn divide(op: Arithmetic, a: Number, b: Number) -> Result<Fixed, NumFault>
    ensures { result ≡ divided op a b }
{
    if b.is_zero() {
        return Err(NumFault::ZeroDivision); // before Overflow
    }
    compute_both(op, a, b)
}

fn raise(a: Number, b: Number) -> Result<Fixed, NumFault>
    ensures { result ≡ of_mixed Arithmetic.Pow a b }
{
    match a.to_decimal() {
        Ok(x) => raise_to(x, b),
        Err(fault) => Err(fault),
    }
}

fn raise_to(x: Fixed, exponent: Number) -> Result<Fixed, NumFault>
    ensures { result ≡ power_to x exponent }
{
    match exponent {
        Number::Whole(n) => x.pow(n),
        Number::Decimal(y) => raise_decimal(x, y),
    }
}

/// The power of a decimal exponent, which has to be whole.
fn raise_decimal(x: Fixed, exponent: Fixed) -> Result<Fixed, NumFault>
    ensures { result ≡ broken_power x exponent }
{
    let raw = exponent.raw();
    if raw % ONE != 0 {
        return Err(NumFault::Domain);
    }
    x.pow((raw / ONE) as i64)
}
