//! Quotients of whole numbers: rounded to the nearest, ties to even, and rounded down.

ghost use Rattle.std.specs.Prelude.{◌≡◌, ◌≢◌, ◌^◌, ◌<◌, ◌≤◌, ℤ, pos, unsigned_abs};
ghost use Rattle.mx_value.specs.Rounding.{IsHalfEven, IsFloor, LiesTowards, half_even, floor_of, rest_of, nearest};

use std::cmp::Ordering;

/// The whole number nearest to `dividend / divisor`, and the even one of two that are equally
/// near: IEEE 754's roundTiesToEven.
pub fn div_half_even(dividend: i128, divisor: i128) -> i128
    requires nonzero { divisor ≢ pos 0 }
    requires fits { unsigned_abs dividend < 2 ^ 127 }
    ensures value { result ≡ half_even dividend divisor }
    ensures nearest { IsHalfEven dividend divisor result }
{
    let magnitude = div_nearest(dividend.unsigned_abs(), divisor.unsigned_abs()) as i128;
    if (dividend < 0) == (divisor < 0) {
        magnitude
    } else {
        -magnitude
    }
}

fn div_nearest(dividend: u128, divisor: u128) -> u128
    requires { 0 < divisor }
    ensures value { result ≡ nearest dividend divisor }
    ensures small { result ≤ dividend }
{
    let below = dividend / divisor;
    let rest = dividend - below * divisor; // one division in place of two
    match rest.cmp(&(divisor - rest)) {
        Ordering::Less => below,
        Ordering::Equal => below + below % 2,
        Ordering::Greater => below + 1,
    }
}

/// The greatest whole number that is at most `dividend / divisor`.
pub fn div_floor(dividend: i128, divisor: i128) -> i128
    requires nonzero { divisor ≢ pos 0 }
    requires dividend_fits { unsigned_abs dividend < 2 ^ 127 }
    requires divisor_fits { unsigned_abs divisor < 2 ^ 127 }
    ensures value { result ≡ floor_of dividend divisor }
    ensures greatest { IsFloor dividend divisor result }
    ensures small { unsigned_abs result ≤ unsigned_abs dividend }
{
    if divisor > 0 {
        dividend.div_euclid(divisor)
    } else {
        (-dividend).div_euclid(-divisor)
    }
}

/// What `dividend` lies above that number times `divisor`: 0, or of the divisor's sign.
pub fn mod_floor(dividend: i128, divisor: i128) -> i128
    requires nonzero { divisor ≢ pos 0 }
    requires dividend_fits { unsigned_abs dividend < 2 ^ 127 }
    requires divisor_fits { unsigned_abs divisor < 2 ^ 127 }
    ensures value { result ≡ rest_of dividend divisor }
    ensures sign { LiesTowards divisor result }
{
    if divisor > 0 {
        dividend.rem_euclid(divisor)
    } else {
        -(-dividend).rem_euclid(-divisor)
    }
}

/// The rounded quotients are the only numbers with their properties.
pub fn laws()
    ensures one_half_even { (n d q r : ℤ) → d ≢ pos 0 → IsHalfEven n d q → IsHalfEven n d r →
        q ≡ r }
    ensures one_floor { (n d q r : ℤ) → IsFloor n d q → IsFloor n d r → q ≡ r }
{}
