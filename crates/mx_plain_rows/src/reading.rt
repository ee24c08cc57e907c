//! The numbers of rows.
use mx_list::items::Items;
use mx_plain::projection::PlainRefusal;
use mx_value::fixed::Fixed;
use std::alloc::{AllocError, AllocFailed, Global};
use std::num::ParseIntError;

/// Why a row has no projection.
#[derive(Drop)]
pub enum Trouble {
    /// A part of it is not of its form.
    NoRow,
    /// The projection is refused.
    Refused(PlainRefusal),
    /// There was not enough memory.
    NoMemory,
}

impl From<AllocError> for Trouble {
    fn from(_error: AllocError) -> Trouble {
        Trouble::NoMemory
    }
}

impl<T: Drop> From<AllocFailed<T>> for Trouble {
    fn from(_error: AllocFailed<T>) -> Trouble {
        Trouble::NoMemory
    }
}

impl From<ParseIntError> for Trouble {
    fn from(_error: ParseIntError) -> Trouble {
        Trouble::NoRow
    }
}

impl From<PlainRefusal> for Trouble {
    fn from(refusal: PlainRefusal) -> Trouble {
        Trouble::Refused(refusal)
    }
}

/// The numbers of a text with spaces between them.
pub fn numbers(alloc: Global, text: &str) -> Result<Vec<i64>, Trouble> {
    let mut numbers = Vec::new(alloc);
    for word in text.split_whitespace() {
        numbers.push(word.parse::<i64>()?)?;
    }
    Ok(numbers)
}

/// The number at a place.
pub fn at(numbers: &[i64], place: usize) -> Result<i64, Trouble> {
    numbers.get(place).copied().ok_or(Trouble::NoRow)
}

/// The decimal number of so many units.
pub fn fixed(raw: i64) -> Result<Fixed, Trouble> {
    Fixed::from_raw(i128::from(raw)).ok_or(Trouble::NoRow)
}

/// The decimal number at a place.
pub fn fixed_at(numbers: &[i64], place: usize) -> Result<Fixed, Trouble> {
    fixed(at(numbers, place)?)
}

/// The number of years or rates at a place.
pub fn count_at(numbers: &[i64], place: usize) -> Result<u32, Trouble> {
    match u32::try_from(at(numbers, place)?) {
        Ok(count) => Ok(count),
        Err(_) => Err(Trouble::NoRow),
    }
}

/// So many rates of mortality from an age on, which are those of the samples' table and go on behind it.
pub fn mort(alloc: Global, age: i64, count: u32) -> Result<Items<Fixed>, Trouble> {
    let mut rates = Items::new(alloc);
    for y in 0..count {
        let over = age.wrapping_add(i64::from(y)).wrapping_sub(20);
        let raw = over.wrapping_mul(over).wrapping_mul(20_000);
        rates.push(fixed(raw.wrapping_add(500_000))?)?;
    }
    Ok(rates)
}

/// So many rates of interest that rise by the same step each year.
pub fn disc(alloc: Global, start: i64, step: i64, count: u32) -> Result<Items<Fixed>, Trouble> {
    let mut rates = Items::new(alloc);
    for y in 0..count {
        let more = step.wrapping_mul(i64::from(y));
        rates.push(fixed(start.wrapping_add(more))?)?;
    }
    Ok(rates)
}
