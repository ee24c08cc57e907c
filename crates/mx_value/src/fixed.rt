//! Decimal numbers with 9 places and a range, and their arithmetic in whole numbers.

ghost use Rattle.std.specs.Prelude.{◌≡◌, ◌≤◌, ◌<◌, ◌^◌, ℕ, ℤ, true, false, pos, ◌+ℤ◌, ◌*ℤ◌, ◌≤ℤ◌, SomeIff, IfOk, unsigned_abs};
ghost use Rattle.mx_value.specs.Rounding.{IsHalfEven, IsFloor, LiesTowards};
ghost use Rattle.mx_value.specs.Fixed.{one, IsInRange, checked, fixed_from_int, fixed_add, fixed_sub, fixed_mul, fixed_div, fixed_floor_div, fixed_rem, power_of, fixed_pow, is_at_most, fixed_root, IsRoot, AddKeepsOrder, RootBrackets, QuotientThenProduct};

use crate::rounding::{div_floor, div_half_even, mod_floor};
use std::marker::Model;

/// Why a number could not be computed.
#[derive(Clone, Copy, Debug, PartialEq, Eq, Drop)]
pub enum NumFault {
    /// The result is out of range.
    Overflow,
    /// The divisor is 0.
    ZeroDivision,
    /// An exponent out of bounds, or a root of a number below 0.
    Domain,
}

/// The raw number of 1.0.
const ONE: i128 = 1_000_000_000;

/// The greatest raw number, 10^19, of ten billions.
const MOST: i128 = 10_000_000_000_000_000_000;

/// The greatest exponent of a power or a root.
const MOST_FACTORS: u64 = 10_000;

/// A decimal number: a whole number of 10^-9, the raw number, at most 10^19 of them to either
/// side of 0. Contracts see it as that whole number.
#[derive(Clone, Copy, Debug, PartialEq, Eq, PartialOrd, Ord, Hash)]
pub struct Fixed {
    raw: i128,
}

impl Model for Fixed {
    ghost use Rattle.std.specs.Prelude.{ℤ, ◌≤◌, ◌^◌, unsigned_abs};

    ghost Value = { ℤ };

    ghost view = { λ x. x.raw };

    ghost invariant = { λ x. unsigned_abs x.raw ≤ 10 ^ 19 };

    ghost inverse = { λ z. record { raw = z } };
}

impl Fixed {
    /// The number of that many 10^-9, or None exactly where it is out of range.
    pub fn from_raw(raw: i128) -> Option<Fixed>
        ensures { SomeIff result (IsInRange raw) raw }
    {
        if -MOST <= raw && raw <= MOST {
            Some(Fixed { raw })
        } else {
            None
        }
    }

    /// How many 10^-9 it is, at most 10^19 to either side of 0.
    pub fn raw(self) -> i128
        ensures value { result ≡ self }
        ensures in_range { IsInRange result }
    {
        self.raw
    }

    /// The whole number as a decimal one. Overflow comes exactly past 10^10 to either side of 0.
    pub fn from_int(n: i64) -> Result<Fixed, NumFault>
        ensures { result ≡ fixed_from_int n }
    {
        in_range(i128::from(n) * ONE)
    }

    /// The exact sum, with Overflow exactly where it is out of range.
    pub fn add(self, other: Fixed) -> Result<Fixed, NumFault>
        ensures { result ≡ fixed_add self other }
    {
        in_range(self.raw + other.raw)
    }

    /// The exact difference, with Overflow exactly where it is out of range.
    pub fn sub(self, other: Fixed) -> Result<Fixed, NumFault>
        ensures { result ≡ fixed_sub self other }
    {
        in_range(self.raw - other.raw)
    }

    /// The exact product rounded half to even, with Overflow exactly where that is out of range.
    pub fn mul(self, other: Fixed) -> Result<Fixed, NumFault>
        ensures value { result ≡ fixed_mul self other }
        ensures rounded { IfOk result (IsHalfEven (self *ℤ other) one) }
    {
        in_range(div_half_even(self.raw * other.raw, ONE))
    }

    /// The exact quotient rounded half to even. ZeroDivision comes exactly at the divisor 0,
    /// and else Overflow exactly where the rounded quotient is out of range.
    pub fn div(self, other: Fixed) -> Result<Fixed, NumFault>
        ensures value { result ≡ fixed_div self other }
        ensures rounded { IfOk result (IsHalfEven (self *ℤ one) other) }
    {
        if other.raw == 0 {
            return Err(NumFault::ZeroDivision); // before Overflow
        }
        in_range(div_half_even(self.raw * ONE, other.raw))
    }

    /// The floor of the exact quotient. ZeroDivision comes exactly at the divisor 0, and else
    /// Overflow exactly where the floor is out of range.
    pub fn floor_div(self, other: Fixed) -> Result<Fixed, NumFault>
        ensures value { result ≡ fixed_floor_div self other }
        ensures floor { IfOk result (λ r. (q : ℤ) × (r ≡ q *ℤ one) × IsFloor self other q) }
    {
        if other.raw == 0 {
            return Err(NumFault::ZeroDivision);
        }
        in_range(div_floor(self.raw, other.raw) * ONE)
    }

    /// What is left above the divisor times that floor: 0, or a number of the divisor's sign.
    /// The one fault is ZeroDivision, exactly at the divisor 0.
    pub fn rem(self, other: Fixed) -> Result<Fixed, NumFault>
        ensures value { result ≡ fixed_rem self other }
        ensures rest { IfOk result
            (λ r. (q : ℤ) × (self ≡ (q *ℤ other) +ℤ r) × IsFloor self other q) }
        ensures sign { IfOk result (LiesTowards other) }
    {
        if other.raw == 0 {
            return Err(NumFault::ZeroDivision);
        }
        Ok(Fixed {
            raw: mod_floor(self.raw, other.raw),
        })
    }

    /// 1.0, multiplied by `self` as many times as `n` says, each product rounded; below 0 the
    /// quotient of 1.0 by that. Domain comes exactly past 10,000 to either side of 0, before all
    /// else; else the first fault of a step is the answer.
    pub fn pow(self, n: i64) -> Result<Fixed, NumFault>
        ensures { result ≡ fixed_pow self n }
    {
        let count = n.unsigned_abs();
        if count > MOST_FACTORS {
            return Err(NumFault::Domain);
        }
        let power = self.power(count)?;
        if n < 0 {
            return (Fixed { raw: ONE }).div(power);
        }
        Ok(power)
    }

    /// The greatest number from 0 whose power `n` is at most `self`, where a power out of range
    /// is greater. Domain comes exactly where `self` is below 0, or `n` is 0 or above 10,000.
    pub fn root(self, n: u32) -> Result<Fixed, NumFault>
        ensures value { result ≡ fixed_root self n }
        ensures greatest { IfOk result (IsRoot self n) }
    {
        let n = u64::from(n);
        if self.raw < 0 || n == 0 || n > MOST_FACTORS {
            return Err(NumFault::Domain);
        }
        let base = self.greatest_base(n);
        Ok(Fixed {
            raw: i128::from(base),
        })
    }

    fn power(self, n: u64) -> Result<Fixed, NumFault>
        ensures { result ≡ power_of self n }
    {
        let mut product = Fixed { raw: ONE };
        for i in 0..n {
            product = product.mul(self)?;
        }
        Ok(product)
    }

    /// The raw number of the root, by halving: no base past 1.0 and `self` is low enough.
    fn greatest_base(self, n: u64) -> u64
        requires not_negative { pos 0 ≤ℤ self }
        requires exponent { 0 < n }
        ensures small { result ≤ 10 ^ 19 }
        ensures reached { is_at_most (power_of (pos result) n) self ≡ true }
        ensures above { (s : ℕ) → result < s → is_at_most (power_of (pos s) n) self ≡ false }
    {
        let mut low = 0;
        let mut high = self.raw.max(ONE) as u64 + 1;
        'halving: while high - low > 1 {
            let middle = low + (high - low) / 2;
            if self.is_power_within(middle, n) {
                low = middle;
            } else {
                high = middle;
            }
        }
        low
    }

    /// Whether the number of that raw number has a power of at most `self`.
    fn is_power_within(self, base: u64, n: u64) -> bool
        requires { base ≤ 10 ^ 19 }
        ensures { result ≡ is_at_most (power_of (pos base) n) self }
    {
        let base = Fixed {
            raw: i128::from(base),
        };
        match base.power(n) {
            Ok(power) => power.raw <= self.raw,
            Err(_) => false,
        }
    }
}

/// The number of that many 10^-9, or Overflow exactly where it is out of range.
fn in_range(raw: i128) -> Result<Fixed, NumFault>
    ensures { result ≡ checked raw }
{
    Fixed::from_raw(raw).ok_or(NumFault::Overflow)
}

/// What holds between the calls. A power out of range has no value here.
pub fn laws()
    ensures add_commutes { (x y : ℤ) → fixed_add x y ≡ fixed_add y x }
    ensures add_zero { (x : ℤ) → IsInRange x → fixed_add x (pos 0) ≡ Ok x }
    ensures add_keeps_order { AddKeepsOrder }
    ensures root_brackets { RootBrackets }
    ensures quotient_then_product { QuotientThenProduct }
{}
