//! Answers rows over the plain projections. A line of standard input that begins with `#` is written again. Every other line is a row:
//! a product, a policy in units of 10^-9, and behind `at` the months whose rows are wanted. It is written again with its answer: a line
//! for each of these months, and one with the present values, or the refusal.
//!
//! Room: checks.
#![tactic(auto)]

mod answer;
mod policies;
mod reading;

use crate::answer::answer;
use std::io;
use std::io::Write;

fn main(rt: HostRuntime) -> io::Result<()> {
    let alloc = rt.alloc();
    let script = io::read_to_string(alloc, rt.reader())?;
    let mut out = Vec::new(alloc);
    for line in script.lines() {
        answer(alloc, line, &mut out)?;
    }
    io::writer(&rt).write_all(&out)
}
