//! The answer to one line.
use crate::telling::push_state;
use crate::trouble::Trouble;
use crate::{edits, holding, items};
use mx_items::ItemStore;
use mx_memo::Memo;
use mx_print::append::push;
use std::alloc::{AllocError, Global};

/// A memo, and a store of items.
#[derive(Drop)]
pub struct Bench {
    pub memo: Memo,
    pub store: ItemStore,
}

/// A memo and a store that hold nothing.
fn empty_bench(alloc: Global) -> Result<Bench, AllocError> {
    match Memo::new(alloc) {
        Ok(memo) => Ok(Bench {
            memo,
            store: ItemStore::new(alloc),
        }),
        Err(_) => Err(AllocError),
    }
}

/// The answers to the lines of a script.
pub fn answers(alloc: Global, script: &str) -> Result<Vec<u8>, AllocError> {
    let mut out = Vec::new(alloc);
    let mut held = empty_bench(alloc)?;
    for line in script.lines() {
        take_line(alloc, &mut held, line, &mut out)?;
    }
    Ok(out)
}

/// Begins a new memo and a new store, or answers a line.
fn take_line(
    alloc: Global,
    held: &mut Bench,
    line: &str,
    out: &mut Vec<u8>,
) -> Result<(), AllocError> {
    if line == "new" {
        *held = empty_bench(alloc)?;
        return Ok(());
    }
    answer(alloc, &mut held.memo, &mut held.store, line, out)
}

/// Adds a line, and the answer of a row.
fn answer(
    alloc: Global,
    memo: &mut Memo,
    store: &mut ItemStore,
    line: &str,
    out: &mut Vec<u8>,
) -> Result<(), AllocError> {
    push(out, line.as_bytes())?;
    if !line.starts_with('#') {
        push(out, b" =>")?;
        match answer_row(alloc, memo, store, line, out) {
            Ok(()) => {}
            Err(Trouble::NoRow) => push(out, b" no row")?,
            Err(Trouble::NoMemory) => return Err(AllocError),
        }
    }
    push(out, b"\n")
}

/// Adds the answer of a row.
fn answer_row(
    alloc: Global,
    memo: &mut Memo,
    store: &mut ItemStore,
    line: &str,
    out: &mut Vec<u8>,
) -> Result<(), Trouble> {
    let (word, rest) = line.split_once(' ').unwrap_or((line, ""));
    match word {
        "put" => items::put(alloc, store, rest),
        "remove" => items::remove(alloc, store, rest),
        "item" => items::hold_item(alloc, memo, rest, out),
        "space" => items::space(alloc, memo, store, rest, out),
        _ => {
            change(alloc, memo, word, rest, out)?;
            push_state(alloc, memo, out)
        }
    }
}

/// Carries out what changes the memo.
fn change(
    alloc: Global,
    memo: &mut Memo,
    word: &str,
    rest: &str,
    out: &mut Vec<u8>,
) -> Result<(), Trouble> {
    match word {
        "hold" => holding::hold(alloc, memo, rest, out),
        "begin" => holding::begin(alloc, memo, rest, out),
        "back" => edits::roll_back(memo, rest),
        "edit" => edits::edit(alloc, memo, rest, out),
        "drop" => edits::drop_one(alloc, memo, rest, out),
        "drop_all" => edits::drop_all(memo, out),
        "renumber" => {
            memo.renumber();
            Ok(())
        }
        _ => Err(Trouble::NoRow),
    }
}
