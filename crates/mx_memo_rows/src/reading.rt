//! The parts of rows.
use crate::trouble::Trouble;
use mx_print::append::{push, push_number};
use std::alloc::Global;

/// The two parts of a row with a space between them.
pub fn two_parts(rest: &str) -> Result<(&str, &str), Trouble> {
    rest.split_once(' ').ok_or(Trouble::NoRow)
}

/// The numbers of a list with `,` between them, or of `.` for none.
pub fn numbers(alloc: Global, word: &str) -> Result<Vec<u8>, Trouble> {
    let mut numbers = Vec::new(alloc);
    if word != "." {
        for number in word.split(',') {
            numbers.push(number.parse::<u8>()?)?;
        }
    }
    Ok(numbers)
}

/// Adds bytes.
pub fn push_bytes(out: &mut Vec<u8>, bytes: &[u8]) -> Result<(), Trouble> {
    Ok(push(out, bytes)?)
}

/// Adds a number behind bytes.
pub fn push_counted(out: &mut Vec<u8>, before: &[u8], number: u64) -> Result<(), Trouble> {
    push(out, before)?;
    Ok(push_number(out, number)?)
}
