//! Values as numbers: whole ones, which flags count as, and decimal ones.
ghost use Rattle.std.specs.Prelude.{◌≡◌};
ghost use Rattle.mx_ops.specs.Numbers.{number_of, whole_of, pair_of, to_decimal, is_zero};

use mx_value::fixed::{Fixed, NumFault};
use mx_value::value::Value;

/// What is computed with two numbers.
#[derive(Clone, Copy, Debug, PartialEq, Eq, Drop)]
pub enum Arithmetic {
    Add,
    Sub,
    Mul,
    Div,
    FloorDiv,
    Rem,
    Pow,
}

/// A number.
#[derive(Clone, Copy)]
pub enum Number {
    Whole(i64),
    Decimal(Fixed),
}

/// Two numbers.
#[derive(Clone, Copy)]
pub enum Pair {
    /// Both whole.
    Wholes(i64, i64),
    /// At least one of them decimal.
    Mixed(Number, Number),
}

/// The number that a value is.
#[inline(always)]
pub fn number_of(value: &Value) -> Option<Number>
    ensures { result ≡ number_of value.now }
{
    match value {
        Value::Int(n) => Some(Number::Whole(*n)),
        Value::Flag(true) => Some(Number::Whole(1)),
        Value::Flag(false) => Some(Number::Whole(0)),
        Value::Fix(x) => Some(Number::Decimal(*x)),
        Value::Nothing => None,
        Value::Text(_) => None,
        Value::Tup(_) => None,
        Value::Space(_) => None,
        Value::Cells(_) => None,
        Value::Table(_) => None,
    }
}

/// The whole number that a value is.
#[inline(always)]
pub fn whole_of(value: &Value) -> Option<i64>
    ensures { result ≡ whole_of value.now }
{
    match number_of(value) {
        Some(Number::Whole(n)) => Some(n),
        Some(Number::Decimal(_)) => None,
        None => None,
    }
}

/// The numbers that two values are.
#[inline(always)]
pub fn pair_of(a: &Value, b: &Value) -> Option<Pair>
    ensures { result ≡ pair_of a.now b.now }
{
    let Some(x) = number_of(a) else {
        return None;
    };
    let Some(y) = number_of(b) else {
        return None;
    };
    match x {
        Number::Whole(m) => match y {
            Number::Whole(n) => Some(Pair::Wholes(m, n)),
            Number::Decimal(_) => Some(Pair::Mixed(x, y)),
        },
        Number::Decimal(_) => Some(Pair::Mixed(x, y)),
    }
}

impl Number {
    /// The number as a decimal one. Overflow comes exactly past 10^10 to either side of 0.
    #[inline(always)]
    pub fn to_decimal(self) -> Result<Fixed, NumFault>
        ensures { result ≡ to_decimal self }
    {
        match self {
            Number::Whole(n) => Fixed::from_int(n),
            Number::Decimal(x) => Ok(x),
        }
    }

    /// Whether it is 0.
    pub fn is_zero(&self) -> bool
        ensures { result ≡ is_zero self.now }
    {
        match self {
            Number::Whole(n) => *n == 0,
            Number::Decimal(x) => x.raw() == 0,
        }
    }
}
