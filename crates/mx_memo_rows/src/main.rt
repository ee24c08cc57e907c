//! Answers rows over a memo and a store of items. A line of standard input that begins with `#` is written again. `new` begins a new
//! memo and a new store. Every other line is a row: a word, and behind it what is given. It is written again with its answer.
//!
//! `mx_memo_rows COUNT` measures instead: it holds so many nodes, each with three keys and three asks, finds each, edits one key 10,000
//! times and rolls a tenth back, and prints a line for each with its milliseconds.
//!
//! Room: checks.
#![tactic(auto)]

mod answer;
mod edits;
mod held;
mod holding;
mod items;
mod measure;
mod nodes;
mod reading;
mod samples;
mod telling;
mod trouble;

use crate::answer::answers;
use crate::measure::{count_of, measure};
use std::io;
use std::io::Write;

fn main(rt: HostRuntime) -> io::Result<()> {
    if let Some(count) = count_of(&rt) {
        return measure(&rt, count);
    }
    let script = io::read_to_string(rt.alloc(), rt.reader())?;
    let out = answers(rt.alloc(), &script)?;
    io::writer(&rt).write_all(&out)
}
