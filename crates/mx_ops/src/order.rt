//! How two values stand to each other.
ghost use Rattle.std.specs.Prelude.{◌≡◌, map};
ghost use Rattle.std.specs.List.{list_any};
ghost use Rattle.mx_ops.specs.Numbers.{scaled};
ghost use Rattle.mx_ops.specs.Kinds.{bytes_of as bytes_in_value};
ghost use Rattle.mx_ops.specs.Order as spec;
ghost use Rattle.mx_ops.specs.Order.{order, ordering, number_order, plain_order, texts_or, in_turn, test_of};

use crate::number::{Number, number_of};
use crate::parts::{bytes_of, items_of};
use mx_list::items::Items;
use mx_value::value::Value;
use std::cmp::Ordering;

/// The raw number of 1.0.
const ONE: i128 = 1_000_000_000;

/// What is asked of two values' order.
#[derive(Clone, Copy, Debug, PartialEq, Eq, Drop)]
pub enum Comparison {
    Lt,
    Le,
    Gt,
    Ge,
}

impl Comparison {
    /// Whether values of this order are what is asked.
    pub fn holds(self, order: Ordering) -> bool
        ensures { result ≡ test_of self order }
    {
        match self {
            Comparison::Lt => order.is_lt(),
            Comparison::Le => order.is_le(),
            Comparison::Gt => order.is_gt(),
            Comparison::Ge => order.is_ge(),
        }
    }
}

fn scaled(number: Number) -> i128
    ensures { result ≡ scaled number }
{
    match number {
        Number::Whole(n) => i128::from(n) * ONE,
        Number::Decimal(x) => x.raw(),
    }
}

#[inline(always)]
fn compare_numbers(x: Number, y: Number) -> Ordering
    ensures { result ≡ number_order x y }
{
    match x {
        Number::Whole(a) => match y {
            Number::Whole(b) => a.cmp(&b),
            Number::Decimal(_) => scaled(x).cmp(&scaled(y)),
        },
        Number::Decimal(_) => scaled(x).cmp(&scaled(y)),
    }
}

fn compare_alike(a: &Value, b: &Value) -> Option<Ordering>
    ensures { result ≡ spec.alike a.now b.now }
{
    if a == b { Some(Ordering::Equal) } else { None }
}

fn compare_others(a: &Value, b: &Value) -> Option<Ordering>
    ensures { result ≡ texts_or (bytes_in_value a.now) (bytes_in_value b.now)
        (spec.alike a.now b.now) }
{
    match bytes_of(a) {
        Some(s) => match bytes_of(b) {
            Some(t) => Some(s.cmp(t)),
            None => compare_alike(a, b),
        },
        None => compare_alike(a, b),
    }
}

#[inline(always)]
fn compare_plain(a: &Value, b: &Value) -> Option<Ordering>
    ensures { result ≡ plain_order a.now b.now }
{
    match number_of(a) {
        Some(x) => match number_of(b) {
            Some(y) => Some(compare_numbers(x, y)),
            None => compare_others(a, b),
        },
        None => compare_others(a, b),
    }
}

/// How `a` stands to `b`: `Equal` exactly where they are equal, and none where they are unequal
/// and neither is less.
#[cycle(order)]
pub fn compare(a: &Value, b: &Value) -> Option<Ordering>
    ensures { result ≡ order a.now b.now }
{
    match a {
        Value::Tup(xs) => match items_of(b) {
            Some(ys) => compare_items(xs, ys.as_slice()),
            None => None,
        },
        _ => compare_plain(a, b),
    }
}

/// The first items that are unequal decide, and then the lengths.
#[cycle(order)]
fn compare_items(xs: &Items<Value>, ys: &[Value]) -> Option<Ordering>
    ensures { result ≡ in_turn (map order xs.now) ys.now }
{
    for (i, x) in xs.as_slice().iter().enumerate() {
        let Some(y) = ys.get(i) else {
            return Some(Ordering::Greater);
        };
        match compare(x, y) {
            Some(Ordering::Equal) => {}
            Some(Ordering::Less) => return Some(Ordering::Less),
            Some(Ordering::Greater) => return Some(Ordering::Greater),
            None => return None,
        }
    }
    if xs.len() < ys.len() {
        return Some(Ordering::Less);
    }
    return Some(Ordering::Equal);
}

/// Whether two values are equal.
pub fn equal(a: &Value, b: &Value) -> bool
    ensures { result ≡ spec.equal a.now b.now }
{
    match compare(a, b) {
        Some(Ordering::Equal) => true,
        Some(Ordering::Less) => false,
        Some(Ordering::Greater) => false,
        None => false,
    }
}

/// The order of two numbers, two texts or two tuples.
#[inline(always)]
pub fn compare_ordered(a: &Value, b: &Value) -> Option<Ordering>
    ensures { result ≡ ordering a.now b.now }
{
    match a {
        Value::Nothing => None,
        Value::Space(_) => None,
        Value::Cells(_) => None,
        Value::Table(_) => None,
        Value::Flag(_) => compare(a, b),
        Value::Int(_) => compare(a, b),
        Value::Fix(_) => compare(a, b),
        Value::Text(_) => compare(a, b),
        Value::Tup(_) => compare(a, b),
    }
}

/// Whether some item is equal to the value.
pub fn is_among(value: &Value, items: &[Value]) -> bool
    ensures { result ≡ list_any (λ item. spec.equal item value.now) items.now }
{
    for item in items {
        if equal(item, value) {
            return true;
        }
    }
    false
}
