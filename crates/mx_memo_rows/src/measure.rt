//! How long kept values take.

use crate::held::{edit_often, find_all, hold_all};
use crate::nodes::{Parts, unread_edit};
use mx_memo::Memo;
use std::alloc::AllocError;
use std::time::{Duration, Instant};
use std::{env, io};

/// The number behind the program's name, where there is one.
pub fn count_of(rt: &HostRuntime) -> Option<u32> {
    let mut args = env::args(rt).ok()?;
    let word = args.nth(1)?;
    word.parse::<u32>().ok()
}

fn tell(rt: &HostRuntime, name: &str, count: u32, taken: Duration) -> io::Result<()> {
    let millis = taken.as_millis();
    println!(rt; "{name}: {millis} ms ({count})")
}

/// Holds so many nodes, finds each, edits one key often and rolls a tenth back.
pub fn measure(rt: &HostRuntime, count: u32) -> io::Result<()> {
    let Some(parts) = Parts::new(rt.alloc()) else {
        return Err(AllocError.into());
    };
    let Ok(mut memo) = Memo::new(rt.alloc()) else {
        return Err(AllocError.into());
    };
    measure_held(rt, &parts, &mut memo, count)?;
    measure_edits(rt, &mut memo)?;
    measure_rolled_back(rt, &mut memo, count)
}

fn measure_held(rt: &HostRuntime, parts: &Parts, memo: &mut Memo, count: u32) -> io::Result<()> {
    let start = Instant::now(rt)?;
    hold_all(rt.alloc(), parts, memo, count);
    tell(rt, "held", memo.count(), start.elapsed(rt)?)?;
    let start = Instant::now(rt)?;
    let found = find_all(rt.alloc(), parts, memo, count);
    tell(rt, "found", found, start.elapsed(rt)?)
}

fn measure_edits(rt: &HostRuntime, memo: &mut Memo) -> io::Result<()> {
    let Some(edited) = unread_edit(rt.alloc()) else {
        return Err(AllocError.into());
    };
    let start = Instant::now(rt)?;
    let dropped = edit_often(memo, &edited, 10_000);
    tell(rt, "10,000 edits", dropped, start.elapsed(rt)?)
}

fn measure_rolled_back(rt: &HostRuntime, memo: &mut Memo, count: u32) -> io::Result<()> {
    let before = memo.count();
    let start = Instant::now(rt)?;
    memo.roll_back_to((count - count / 10) as usize);
    let taken = start.elapsed(rt)?;
    let gone = before.saturating_sub(memo.count());
    tell(rt, "rolled back", gone, taken)
}
