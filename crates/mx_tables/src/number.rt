//! Numbers as fields say them.
ghost use Rattle.std.specs.Prelude.{◌≡◌, ◌≤◌, ◌+◌, ◌-◌, ◌*◌, ◌^◌, length, if◌then◌else◌, option_and_then};
ghost use Rattle.std.specs.List.{prefix_len, list_all, AllPass};
ghost use Rattle.std.specs.Char.{is_ascii_digit};
ghost use Rattle.mx_lex.specs.Spans as spans;
ghost use Rattle.mx_tables.specs.Numbers as spec;

use mx_value::fixed::Fixed;
use mx_value::value::Value;

/// The size of a number without its sign. A decimal number is counted in 10^-9.
#[derive(Clone, Copy, Debug, PartialEq, Eq)]
pub enum Size {
    Whole(u64),
    Decimal(u64),
}

/// One more than the greatest `i64`, the size of the least.
const LARGEST_INT: u64 = 9_223_372_036_854_775_808;

/// Ten billions in 10^-9.
const LARGEST_RAW: u64 = 10_000_000_000_000_000_000;

/// The greatest whole part of a decimal number.
const LARGEST_WHOLE: u64 = 10_000_000_000;

/// The raw number of 1.0.
const ONE: u64 = 1_000_000_000;

const MOST_DECIMALS: usize = 9;

/// The number that a field says: an optional `-`, then digits or digits, a point and 1 to 9 digits.
#[tactic(auto, unfolding(crate::specs::Numbers::number_of))]
pub fn number_of(field: &[u8]) -> Option<Value>
    ensures { result ≡ spec.number_of field.now }
{
    match field {
        [] => None,
        [b'-', size @ ..] => signed(true, size_of(size)),
        [_, ..] => signed(false, size_of(field)),
    }
}

fn signed(is_negative: bool, size: Option<Size>) -> Option<Value>
    ensures { result ≡ option_and_then (if is_negative then spec.negative else spec.positive) size }
{
    let Some(size) = size else {
        return None;
    };
    if is_negative {
        return negative(size);
    }
    return positive(size);
}

/// The number of a size, where its type has it.
#[tactic(auto, unfolding(crate::specs::Numbers::positive))]
fn positive(size: Size) -> Option<Value>
    ensures { result ≡ spec.positive size }
{
    match size {
        Size::Whole(n) => Some(Value::Int(0i64.checked_add_unsigned(n)?)),
        Size::Decimal(n) => Some(Value::Fix(Fixed::from_raw(i128::from(n))?)),
    }
}

/// The number of a size behind a minus sign, where its type has it.
#[tactic(auto, unfolding(crate::specs::Numbers::negative))]
fn negative(size: Size) -> Option<Value>
    ensures { result ≡ spec.negative size }
{
    match size {
        Size::Whole(n) => Some(Value::Int(0i64.checked_sub_unsigned(n)?)),
        Size::Decimal(n) => Some(Value::Fix(Fixed::from_raw(-i128::from(n))?)),
    }
}

fn digits_len(text: &[u8]) -> usize
    ensures value { result ≡ prefix_len is_ascii_digit text.now }
    ensures within { result ≤ length text.now }
{
    text.iter().take_while(|b| b.is_ascii_digit()).count()
}

/// The size of a number without its sign.
#[tactic(auto, unfolding(crate::specs::Numbers::size_of))]
fn size_of(text: &[u8]) -> Option<Size>
    ensures { result ≡ spec.size_of text.now }
{
    let count = digits_len(text);
    if count == 0 {
        return None;
    }
    let (digits, behind) = text.split_at(count);
    return size_behind(digits, behind);
}

fn size_behind(digits: &[u8], behind: &[u8]) -> Option<Size>
    requires { AllPass is_ascii_digit digits.now }
    ensures { result ≡ spec.size_behind digits.now behind.now }
{
    match behind {
        [] => whole_size(digits),
        [b'.', decimals @ ..] => decimal_size(digits, decimals),
        [_, ..] => None,
    }
}

fn is_whole(digits: &[u8]) -> bool
    ensures { result ≡ spans.is_whole digits.now }
{
    match digits {
        [b'0', _, ..] => false,
        [] | [_, ..] => true,
    }
}

fn are_digits(text: &[u8]) -> bool
    ensures { result ≡ list_all is_ascii_digit text.now }
{
    text.iter().all(|b| b.is_ascii_digit())
}

/// What the digits spell, if it is at most the limit.
fn at_most(digits: &[u8], limit: u64) -> Option<u64>
    requires digits { AllPass is_ascii_digit digits.now }
    requires limit { 9 ≤ limit }
    ensures { result ≡ spec.at_most limit digits.now }
{
    let mut value = 0;
    for b in digits {
        let digit = u64::from(*b - b'0');
        if value > (limit - digit) / 10 {
            return None;
        }
        value = value * 10 + digit;
    }
    return Some(value);
}

fn whole_size(digits: &[u8]) -> Option<Size>
    requires { AllPass is_ascii_digit digits.now }
    ensures { result ≡ spec.whole_size digits.now }
{
    if !is_whole(digits) {
        return None;
    }
    let Some(n) = at_most(digits, LARGEST_INT) else {
        return None;
    };
    return Some(Size::Whole(n));
}

/// Whether these can stand behind a point.
fn are_decimals(decimals: &[u8]) -> bool
    ensures { result ≡ spec.are_decimals decimals.now }
{
    1 <= decimals.len() && decimals.len() <= MOST_DECIMALS && are_digits(decimals)
}

fn decimal_size(digits: &[u8], decimals: &[u8]) -> Option<Size>
    requires { AllPass is_ascii_digit digits.now }
    ensures { result ≡ spec.decimal_size digits.now decimals.now }
{
    if !is_whole(digits) {
        return None;
    }
    if !are_decimals(decimals) {
        return None;
    }
    let Some(whole) = at_most(digits, LARGEST_WHOLE) else {
        return None;
    };
    let Some(part) = at_most(decimals, ONE) else {
        return None;
    };
    let raw = raw_of(whole, part, decimals.len());
    if raw > LARGEST_RAW {
        return None;
    }
    return Some(Size::Decimal(raw));
}

/// How many 10^-9 a whole part and so many decimals make.
fn raw_of(whole: u64, part: u64, places: usize) -> u64
    requires whole { whole ≤ 10 ^ 10 }
    requires part { part ≤ 10 ^ 9 }
    requires places { places ≤ 9 }
    ensures { result ≡ whole * 10 ^ 9 + part * 10 ^ (9 - places) }
{
    let unit = 10u64.pow((MOST_DECIMALS - places) as u32);
    whole * ONE + part * unit
}
