//! Answers rows over a graph of reads. A line of standard input that begins with `#` is written again. `new` begins a new graph.
//! Every other line is a row: a word, and behind it what is given. It is written again with its answer.
//!
//! Room: checks.
#![tactic(auto)]

mod answer;
mod bench;
mod trouble;
mod walks;

use crate::answer::answers;
use std::io;
use std::io::Write;

fn main(rt: HostRuntime) -> io::Result<()> {
    let script = io::read_to_string(rt.alloc(), rt.reader())?;
    let out = answers(rt.alloc(), &script)?;
    io::writer(&rt).write_all(&out)
}
