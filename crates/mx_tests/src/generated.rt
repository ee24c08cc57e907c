//! The generated model, beside lists of edits that a Python program of ten lines computed by the same rules.

use crate::said::is;
use crate::shown::push_edit;
use mx_edit::edit::Edit;
use mx_gen::make::{GenRefusal, make};
use mx_print::append::{push, push_number};
use std::alloc::{AllocError, Global};
use std::process::Abort;
use std::test::Fail;

/// Numbers of spaces and seeds, with all edits of the model.
const SMALL: [(u32, u64, &str); 6] = [
    (
        1,
        0,
        "3 edits
space S0
cells S0.f(t) = 807 if t <= 0 else f(t - 1) + g(t - 1)
cells S0.g(t) = f(t) * 3 % 1009
",
    ),
    (
        5,
        7,
        "15 edits
space S0
cells S0.f(t) = 278 if t <= 0 else f(t - 1) + g(t - 1)
cells S0.g(t) = f(t) * 3 % 1009
space S1
bases S1: S0
cells S1.g(t) = f(t) * 4 % 1009
space S2
bases S2: S1
cells S2.f(t) = 545 if t <= 0 else f(t - 1) + g(t - 1)
space S3
bases S3: S2
cells S3.g(t) = f(t) * 2 % 1009
space S4
bases S4: S0
cells S4.f(t) = 739 if t <= 0 else f(t - 1) + g(t - 1)
",
    ),
    (
        3,
        18_446_744_073_709_551_615,
        "9 edits
space S0
cells S0.f(t) = 488 if t <= 0 else f(t - 1) + g(t - 1)
cells S0.g(t) = f(t) * 3 % 1009
space S1
bases S1: S0
cells S1.g(t) = f(t) * 5 % 1009
space S2
bases S2: S0
cells S2.f(t) = 864 if t <= 0 else f(t - 1) + g(t - 1)
",
    ),
    (0, 1, "bad size"),
    (2_001, 1, "bad size"),
    (4_294_967_295, 1, "bad size"),
];

/// Places of edits, counted from 0, of a model of 2,000 spaces, and those edits.
const PLACES: [usize; 5] = [1_234, 2_999, 5_998, 5_999, 6_000];

const LARGE: &str = "6000 edits
bases S411: S36
cells S999.g(t) = f(t) * 5 % 1009
bases S1999: S39
cells S1999.g(t) = f(t) * 7 % 1009
none
";

fn push_count(out: &mut Vec<u8>, edits: &[Edit]) -> Result<(), AllocError> {
    push_number(out, edits.len() as u64)?;
    push(out, b" edits\n")
}

fn push_all(alloc: Global, out: &mut Vec<u8>, edits: &[Edit]) -> Result<(), AllocError> {
    push_count(out, edits)?;
    for edit in edits {
        push_edit(alloc, out, edit)?;
        push(out, b"\n")?;
    }
    Ok(())
}

fn push_model(alloc: Global, out: &mut Vec<u8>, size: u32, seed: u64) -> Result<(), AllocError> {
    match make(alloc, size, seed) {
        Ok(edits) => push_all(alloc, out, &edits),
        Err(GenRefusal::BadSize) => push(out, b"bad size"),
        Err(GenRefusal::NoMemory) => Err(AllocError),
    }
}

fn compare_models(rt: &impl Abort, alloc: Global, rows: &[(u32, u64, &str)]) -> Result<(), Fail> {
    let mut out = Vec::new(alloc);
    for (size, seed, wanted) in rows {
        out.clear();
        push_model(alloc, &mut out, *size, *seed)?;
        is(rt, &out, wanted);
    }
    Ok(())
}

#[test]
fn the_edits_are_those_of_the_rules(rt: HostRuntime) -> Result<(), Fail> {
    compare_models(&rt, rt.alloc(), &SMALL)
}

fn push_place(alloc: Global, out: &mut Vec<u8>, edit: Option<&Edit>) -> Result<(), AllocError> {
    match edit {
        Some(edit) => push_edit(alloc, out, edit)?,
        None => push(out, b"none")?,
    }
    push(out, b"\n")
}

fn push_places(
    alloc: Global,
    out: &mut Vec<u8>,
    edits: &[Edit],
    places: &[usize],
) -> Result<(), AllocError> {
    push_count(out, edits)?;
    for place in places {
        push_place(alloc, out, edits.get(*place))?;
    }
    Ok(())
}

#[test]
fn the_largest_model_is_made(rt: HostRuntime) -> Result<(), Fail> {
    let edits = make(rt.alloc(), 2_000, 20_260_101)?;
    let mut out = Vec::new(rt.alloc());
    push_places(rt.alloc(), &mut out, &edits, &PLACES)?;
    is(&rt, &out, LARGE);
    Ok(())
}
