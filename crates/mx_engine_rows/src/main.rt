//! Answers rows over an engine. A line of standard input that begins with `#` begins a new engine and is written again. Every other
//! line is a row: `bound NODE` or `replace EDIT`, which no script has, or else a command of scripts. An edit that drops nodes answers
//! with their number.
//!
//! Room: checks.
#![tactic(auto)]

mod bench;
mod reading;
mod rows;

use crate::rows::answer_script;
use std::io;
use std::io::Write;

fn main(rt: HostRuntime) -> io::Result<()> {
    let alloc = rt.alloc();
    let script = io::read_to_string(alloc, rt.reader())?;
    let mut out = Vec::new(alloc);
    answer_script(alloc, &script, &mut out)?;
    io::writer(&rt).write_all(&out)
}
