//! Numbers: digits, and behind them maybe a point and digits.

ghost use Rattle.std.specs.Prelude.{◌≡◌, ◌+◌, ◌^◌, ◌<◌, ◌≤◌, ◌==◌, nat_le, length};
ghost use Rattle.std.specs.List.{prefix_len, list_all, AllPass};
ghost use Rattle.std.specs.Char.{is_ascii_digit};
ghost use Rattle.mx_lex.specs.Bytes as is;
ghost use Rattle.mx_lex.specs.Spans as spec;

use crate::bytes::continues_name;
use crate::spans::Span;
use crate::{LexRefusal, TokenKind};

/// The greatest number without a point: one more than the greatest `i64`, for behind a minus sign.
const LARGEST_INT: u64 = 9_223_372_036_854_775_808;

/// The greatest whole part of a number with a point.
const LARGEST_WHOLE: u64 = 10_000_000_000;

const MOST_DECIMALS: usize = 9;

fn digits_len(rest: &[u8]) -> usize
    ensures value { result ≡ prefix_len is_ascii_digit rest.now }
    ensures within { result ≤ length rest.now }
{
    rest.iter().take_while(|b| b.is_ascii_digit()).count()
}

/// Whether the number that the digits spell is at most the limit.
fn is_at_most(digits: &[u8], limit: u64) -> bool
    requires digits { AllPass is_ascii_digit digits.now }
    requires limit { 9 ≤ limit }
    ensures { result ≡ nat_le (spec.digits_from 0 digits.now) limit }
{
    let mut value = 0;
    for b in digits {
        let digit = u64::from(*b - b'0');
        if value > (limit - digit) / 10 {
            return false;
        }
        value = value * 10 + digit;
    }
    true
}

fn is_whole(digits: &[u8]) -> bool
    ensures { result ≡ spec.is_whole digits.now }
{
    match digits {
        [b'0', _, ..] => false,
        [] | [_, ..] => true,
    }
}

fn is_glued(behind: &[u8]) -> bool
    ensures { result ≡ spec.is_glued behind.now }
{
    match behind {
        [] => false,
        [b, ..] => continues_name(*b) || *b == b'.',
    }
}

fn is_int(digits: &[u8], behind: &[u8]) -> bool
    requires { AllPass is_ascii_digit digits.now }
    ensures { result ≡ spec.is_int digits.now behind.now }
{
    is_whole(digits) && is_at_most(digits, LARGEST_INT) && !is_glued(behind)
}

fn are_zeros(digits: &[u8]) -> bool
    ensures { result ≡ list_all (λ d. d == 48) digits.now }
{
    digits.iter().all(|d| *d == b'0')
}

fn whole_limit(decimals: &[u8]) -> u64
    ensures value { result ≡ spec.whole_limit decimals.now }
    ensures least { 9 ≤ result }
{
    if are_zeros(decimals) {
        LARGEST_WHOLE
    } else {
        LARGEST_WHOLE - 1
    }
}

fn is_fix(digits: &[u8], decimals: &[u8], behind: &[u8]) -> bool
    requires { AllPass is_ascii_digit digits.now }
    ensures { result ≡ spec.is_fix digits.now decimals.now behind.now }
{
    is_whole(digits)
        && 1 <= decimals.len()
        && decimals.len() <= MOST_DECIMALS
        && is_at_most(digits, whole_limit(decimals))
        && !is_glued(behind)
}

/// The number at the front of the rest, which begins with a digit.
#[inline(always)]
#[tactic(auto, unfolding(crate::specs::Spans::number_at))]
pub fn number(rest: &[u8], at: u32) -> Result<Span, LexRefusal>
    ensures { result ≡ spec.number_at at rest.now }
{
    let (digits, behind) = rest.split_at(digits_len(rest));
    if let [b'.', after @ ..] = behind {
        let (decimals, behind) = after.split_at(digits_len(after));
        if is_fix(digits, decimals, behind) {
            return Ok(Span {
                kind: TokenKind::Fix,
                len: digits.len() + 1 + decimals.len(),
            });
        }
        return Err(LexRefusal::BadNumber(at));
    }
    if is_int(digits, behind) {
        return Ok(Span {
            kind: TokenKind::Int,
            len: digits.len(),
        });
    }
    Err(LexRefusal::BadNumber(at))
}
