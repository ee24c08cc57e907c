//! Numbers of a projection: as in a spreadsheet, a fault stands where its number would.
ghost use Rattle.std.specs.Prelude.{◌≡◌, pos, int_le, if◌then◌else◌};
ghost use Rattle.mx_value.specs.Fixed.{IsInRange, checked, fixed_from_int};
ghost use Rattle.mx_plain.specs.Figures.{joined, turned, changed, Plus, Minus, Times, Over, Larger, Monthly, InCents};

use mx_value::fixed::{Fixed, NumFault};
use mx_value::rounding::div_half_even;

/// A number, or the fault of the first step from the left that had none.
pub type Number = Result<Fixed, NumFault>;

/// How many 10^-9 a cent has.
const CENT: i128 = 10_000_000;

/// The number of that many 10^-9.
pub fn decimal(raw: i128) -> Number
    requires { IsInRange raw }
    ensures { result ≡ Ok raw }
{
    in_range(raw)
}

fn in_range(raw: i128) -> Number
    ensures { result ≡ checked raw }
{
    Fixed::from_raw(raw).ok_or(NumFault::Overflow)
}

/// The same number again.
pub fn copied(a: &Number) -> Number
    ensures { result ≡ a.now }
{
    match a {
        Ok(x) => Ok(*x),
        Err(fault) => Err(*fault),
    }
}

/// A whole number, as a decimal one.
pub fn whole(n: u32) -> Number
    ensures { result ≡ fixed_from_int (pos n) }
{
    Fixed::from_int(i64::from(n))
}

/// The sum.
pub fn plus(a: &Number, b: &Number) -> Number
    ensures { result ≡ joined Plus a.now b.now }
{
    match (a, b) {
        (Ok(x), Ok(y)) => (*x).add(*y),
        (Err(fault), _) => Err(*fault),
        (Ok(_), Err(fault)) => Err(*fault),
    }
}

/// The difference.
pub fn minus(a: &Number, b: &Number) -> Number
    ensures { result ≡ joined Minus a.now b.now }
{
    match (a, b) {
        (Ok(x), Ok(y)) => (*x).sub(*y),
        (Err(fault), _) => Err(*fault),
        (Ok(_), Err(fault)) => Err(*fault),
    }
}

/// The product, rounded half to even.
pub fn times(a: &Number, b: &Number) -> Number
    ensures { result ≡ joined Times a.now b.now }
{
    match (a, b) {
        (Ok(x), Ok(y)) => (*x).mul(*y),
        (Err(fault), _) => Err(*fault),
        (Ok(_), Err(fault)) => Err(*fault),
    }
}

/// The quotient, rounded half to even.
pub fn over(a: &Number, b: &Number) -> Number
    ensures { result ≡ joined Over a.now b.now }
{
    match (a, b) {
        (Ok(x), Ok(y)) => (*x).div(*y),
        (Err(fault), _) => Err(*fault),
        (Ok(_), Err(fault)) => Err(*fault),
    }
}

/// The greater one.
pub fn larger(a: &Number, b: &Number) -> Number
    ensures { result ≡ joined Larger a.now b.now }
{
    match (a, b) {
        (Ok(x), Ok(y)) => Ok(greater(*x, *y)),
        (Err(fault), _) => Err(*fault),
        (Ok(_), Err(fault)) => Err(*fault),
    }
}

fn greater(x: Fixed, y: Fixed) -> Fixed
    ensures { result ≡ (if int_le y x then x else y) }
{
    if y.raw() <= x.raw() { x } else { y }
}

/// The twelfth root: a yearly factor as a monthly one.
pub fn monthly(a: &Number) -> Number
    ensures { result ≡ turned Monthly a.now }
{
    match a {
        Ok(x) => (*x).root(12),
        Err(fault) => Err(*fault),
    }
}

/// Rounded half to even at two decimals.
pub fn in_cents(a: &Number) -> Number
    ensures { result ≡ turned InCents a.now }
{
    match a {
        Ok(x) => rounded(*x),
        Err(fault) => Err(*fault),
    }
}

fn rounded(x: Fixed) -> Number
    ensures { result ≡ changed InCents x }
{
    in_range(div_half_even(x.raw(), CENT) * CENT)
}
