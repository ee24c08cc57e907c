//! The rows of a script.
ghost use Rattle.std.specs.Prelude.{◌≡◌, ◌<◌};

use crate::bench::{Bench, carry_out};
use mx_frames::steps::Steps;
use mx_print::append::{push, push_number};
use std::alloc::{AllocError, Global};
use std::marker::Brand;
use std::sync::ledger::{Blank, Ledger};

/// Answers the rows of a script, one after another.
pub fn answer_script(alloc: Global, script: &String, out: &mut Vec<u8>) -> Result<(), AllocError> {
    answer_all::<Brand>(alloc, Blank::new(1), script, out)
}

/// The same, with a count of steps.
fn answer_all<L: Ledger>(
    alloc: Global,
    blank: Blank,
    script: &String,
    out: &mut Vec<u8>,
) -> Result<(), AllocError>
    requires name { blank.name ≡ L.name }
    requires parts { blank.parts ≡ L.parts }
    requires some { 0 < blank.parts }
{
    let mut steps = Steps::<L>::new(blank);
    let mut bench = Bench::new(alloc)?;
    for line in script.lines() {
        take_line(&mut bench, line.as_bytes(), &mut steps, out)?;
    }
    Ok(())
}

/// Begins a new engine, or answers a row.
fn take_line<L: Ledger>(
    bench: &mut Bench,
    line: &[u8],
    steps: &mut Steps<L>,
    out: &mut Vec<u8>,
) -> Result<(), AllocError> {
    if line.starts_with(b"#") {
        *bench = Bench::new(bench.interpreter.alloc)?;
        push(out, line)?;
        return push(out, b"\n");
    }
    let before = bench.interpreter.engine.held_count();
    carry_out(bench, line, steps)?;
    let gone = before.saturating_sub(bench.interpreter.engine.held_count());
    push_block(out, &bench.interpreter.block, gone)
}

/// Adds a block: behind `ok` how many nodes were dropped, where there are some.
fn push_block(out: &mut Vec<u8>, block: &[u8], gone: u32) -> Result<(), AllocError> {
    if gone == 0 || block != b"ok\n".as_slice() {
        return push(out, block);
    }
    push(out, b"ok ")?;
    push_number(out, gone as u64)?;
    push(out, b"\n")
}
