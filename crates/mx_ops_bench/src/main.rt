//! How long an operator takes: `mx_ops_bench COUNT` times sums, products and comparisons of whole and of decimal numbers,
//! and prints a line for each with the nanoseconds of one, those of the loop that makes its operands taken off. Without a
//! count it does nothing.
//!
//! Room: checks.
#![tactic(auto)]

use mx_ops::apply::apply;
use mx_syntax::op::Op;
use mx_value::fixed::Fixed;
use mx_value::value::Value;
use std::alloc::Global;
use std::process::ExitCode;
use std::time::Instant;
use std::{env, io};

/// An operator with its name, and whether its operands are decimal.
const MEASURED: [(&str, Op, bool); 6] = [
    ("sum of whole numbers", Op::Add, false),
    ("product of whole numbers", Op::Mul, false),
    ("comparison of whole numbers", Op::Lt, false),
    ("sum of decimal numbers", Op::Add, true),
    ("product of decimal numbers", Op::Mul, true),
    ("comparison of decimal numbers", Op::Lt, true),
];

/// A number near 1,000, as a whole or as a decimal one.
fn operand(place: u32, is_decimal: bool) -> Value {
    let number = 1_000 + i64::from(place % 64);
    if !is_decimal {
        return Value::Int(number);
    }
    match Fixed::from_int(number) {
        Ok(x) => Value::Fix(x),
        Err(_) => Value::Nothing,
    }
}

/// How many of so many pairs of operands are no None.
fn make_often(is_decimal: bool, count: u32) -> u32 {
    let mut made = 0u32;
    for place in 0..count {
        let operands = [operand(place, is_decimal), operand(place / 64, is_decimal)];
        if !operands.iter().all(|v| matches!(v, Value::Nothing)) {
            made = made.wrapping_add(1);
        }
    }
    made
}

/// How many of so many computations gave a value.
fn compute_often(alloc: Global, op: Op, is_decimal: bool, count: u32) -> u32 {
    let mut given = 0u32;
    for place in 0..count {
        let operands = [operand(place, is_decimal), operand(place / 64, is_decimal)];
        if apply(alloc, op, &operands).is_ok() {
            given = given.wrapping_add(1);
        }
    }
    given
}

fn count_of(rt: &HostRuntime) -> Option<u32> {
    let mut args = env::args(rt).ok()?;
    let word = args.nth(1)?;
    word.parse::<u32>().ok()
}

fn measure(rt: &HostRuntime, count: u32) -> io::Result<()> {
    for (name, op, is_decimal) in MEASURED {
        let start = Instant::now(rt)?;
        let numbers = make_often(is_decimal, count);
        let made = start.elapsed(rt)?;
        let start = Instant::now(rt)?;
        let given = compute_often(rt.alloc(), op, is_decimal, count);
        let taken = start.elapsed(rt)?;
        let each = taken.saturating_sub(made).as_nanos() / u128::from(count.max(1));
        let all = taken.as_nanos() / u128::from(count.max(1));
        println!(rt; "{name}: {each} ns of {all} ({given} of {numbers})")?;
    }
    Ok(())
}

fn main(rt: HostRuntime) -> ExitCode {
    match count_of(&rt) {
        Some(count) => match measure(&rt, count) {
            Ok(()) => ExitCode::SUCCESS,
            Err(_) => ExitCode::FAILURE,
        },
        None => ExitCode::SUCCESS,
    }
}
