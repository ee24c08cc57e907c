//! The answer to one line.
use crate::policies::{savings_policy, term_policy};
use crate::reading::{Trouble, numbers};
use mx_list::items::Items;
use mx_plain::projection::{PlainRefusal, Projection};
use mx_plain::savings::savings;
use mx_plain::term::term;
use mx_print::append::push;
use mx_value::fixed::{Fixed, NumFault};
use std::alloc::{AllocError, Global};

/// Adds a line, and the answer of a row.
pub fn answer(alloc: Global, line: &str, out: &mut Vec<u8>) -> Result<(), AllocError> {
    push(out, line.as_bytes())?;
    push(out, b"\n")?;
    if line.starts_with('#') {
        return Ok(());
    }
    match answer_row(alloc, line, out) {
        Ok(()) => Ok(()),
        Err(Trouble::NoRow) => push(out, b"no row\n"),
        Err(Trouble::Refused(refusal)) => push_refusal(out, refusal),
        Err(Trouble::NoMemory) => Err(AllocError),
    }
}

/// Adds why there is no projection.
fn push_refusal(out: &mut Vec<u8>, refusal: PlainRefusal) -> Result<(), AllocError> {
    match refusal {
        PlainRefusal::BadPolicy => push(out, b"BadPolicy\n"),
        PlainRefusal::Num(NumFault::Overflow) => push(out, b"Overflow\n"),
        PlainRefusal::Num(NumFault::ZeroDivision) => push(out, b"ZeroDivision\n"),
        PlainRefusal::Num(NumFault::Domain) => push(out, b"Domain\n"),
        PlainRefusal::NoMemory => Err(AllocError),
    }
}

/// Adds the answer of a row.
fn answer_row(alloc: Global, line: &str, out: &mut Vec<u8>) -> Result<(), Trouble> {
    let (product, rest) = line.split_once(' ').ok_or(Trouble::NoRow)?;
    let (policy, months) = rest.split_once(" at").ok_or(Trouble::NoRow)?;
    let projection = projection(alloc, product, &numbers(alloc, policy)?)?;
    push_months(&projection, &numbers(alloc, months)?, out)?;
    push(out, b"pv")?;
    push_numbers(out, &projection.pv)?;
    Ok(())
}

/// The projection of a product's policy.
fn projection(alloc: Global, product: &str, numbers: &[i64]) -> Result<Projection, Trouble> {
    match product {
        "term" => Ok(term(alloc, &term_policy(alloc, numbers)?)?),
        "savings" => Ok(savings(alloc, &savings_policy(alloc, numbers)?)?),
        _ => Err(Trouble::NoRow),
    }
}

/// Adds the rows of months.
fn push_months(projection: &Projection, months: &[i64], out: &mut Vec<u8>) -> Result<(), Trouble> {
    for month in months {
        let place = usize::try_from(*month).ok().ok_or(Trouble::NoRow)?;
        let row = projection.rows.get(place).ok_or(Trouble::NoRow)?;
        push_number(out, i128::from(*month))?;
        push_numbers(out, row)?;
    }
    Ok(())
}

/// Adds numbers, each behind a space, and the end of the line.
fn push_numbers(out: &mut Vec<u8>, numbers: &Items<Fixed>) -> Result<(), AllocError> {
    for number in numbers.as_slice() {
        push(out, b" ")?;
        push_number(out, number.raw())?;
    }
    push(out, b"\n")
}

/// Adds a whole number.
fn push_number(out: &mut Vec<u8>, number: i128) -> Result<(), AllocError> {
    push(out, itoa::Buffer::new().format(number).as_bytes())
}
