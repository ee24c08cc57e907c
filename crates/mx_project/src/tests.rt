//! Folders that are read, and what is written of them again.

use crate::read::read_project;
use crate::refusal::ProjectRefusal;
use crate::text::push_project_refusal;
use crate::write::write_project;
use mx_outside::SureFiles;
use mx_print::append::push;
use mx_value::label::Label;
use std::alloc::{AllocError, Global};
use std::process::Abort;
use std::test::Fail;

/// The names of a project's files, in their order, with a table `m` and a top space `A`.
const NAMES: [&str; 5] = [
    "model.mx",
    "table_m.csv",
    "space_A.mx",
    "refs.mx",
    "inputs.mx",
];

/// A canonical project.
const WHOLE: [&[u8]; 5] = [
    b"mx project 1\nspace A\nspace A.B\nspace C\nbases C: A\ntable m\n",
    b"age,rate\n30,0.0025\n31,0.003\n",
    b"cells A.f(t, k=2) = 1 if t <= 0 else f(t - 1) * k\nallow A.f\nparams A.B(x, y=1)\n",
    b"ref A.r = table m\nref A.s = to C\nglobal g = 2.5\n",
    b"input A.f(1, 2) = 7\ninput A.f(10, 2) = 8\ninput A.f(2, 2) = 9\n",
];

fn name_in(alloc: Global, folder: &str, name: &str) -> Result<String, AllocError> {
    let mut whole = String::from_str(alloc, folder)?;
    whole.push_str("/")?;
    whole.push_str(name)?;
    Ok(whole)
}

fn add(
    alloc: Global,
    files: &mut Vec<(String, Vec<u8>)>,
    name: &str,
    bytes: &[u8],
) -> Result<(), AllocError> {
    let name = name_in(alloc, "p", name)?;
    let bytes = bytes.to_vec(alloc)?;
    files.push((name, bytes))?;
    Ok(())
}

/// The folder `p` with the files of the canonical project, but for one that has these bytes, or is not there, and the file of the
/// top space `C`, which has no line.
fn folder(alloc: Global, name: &str, bytes: Option<&[u8]>) -> Result<SureFiles, AllocError> {
    let mut files = Vec::new(alloc);
    for place in 0..5 {
        if NAMES[place] == name {
            if let Some(bytes) = bytes {
                add(alloc, &mut files, name, bytes)?;
            }
        } else {
            add(alloc, &mut files, NAMES[place], WHOLE[place])?;
        }
    }
    add(alloc, &mut files, "space_C.mx", b"")?;
    Ok(SureFiles::new(files))
}

fn label(alloc: Global, bytes: &[u8]) -> Result<Label, AllocError> {
    match Label::new(alloc, bytes) {
        Ok(label) => Ok(label),
        Err(_) => Err(AllocError),
    }
}

fn push_trouble(out: &mut Vec<u8>, trouble: &ProjectRefusal) -> Result<(), AllocError> {
    push_project_refusal(out, trouble)?;
    push(out, b"\n")
}

/// Adds what a folder says, which is written into the folder `q`.
fn push_read(alloc: Global, out: &mut Vec<u8>, files: &mut SureFiles) -> Result<(), AllocError> {
    let from = label(alloc, b"p")?;
    let to = label(alloc, b"q")?;
    match read_project(alloc, &from, files) {
        Ok(world) => match write_project(alloc, &world, &to, files) {
            Ok(()) => push(out, b"written\n"),
            Err(trouble) => push_trouble(out, &trouble),
        },
        Err(trouble) => push_trouble(out, &trouble),
    }
}

/// Adds the bytes of a file of the folder `q`.
fn push_file(
    alloc: Global,
    out: &mut Vec<u8>,
    files: &SureFiles,
    name: &str,
) -> Result<(), AllocError> {
    let name = name_in(alloc, "q", name)?;
    match files.get(&name) {
        Some(bytes) => push(out, bytes),
        None => push(out, b"none\n"),
    }
}

fn is(rt: &impl Abort, out: &[u8], wanted: &[u8]) {
    assert!(rt; out == wanted);
}

#[test]
fn a_canonical_project_is_written_as_it_was_read(rt: HostRuntime) -> Result<(), Fail> {
    let mut files = folder(rt.alloc(), "", None)?;
    let mut out = Vec::new(rt.alloc());
    push_read(rt.alloc(), &mut out, &mut files)?;
    for name in NAMES {
        push_file(rt.alloc(), &mut out, &files, name)?;
    }
    let mut wanted = b"written\n".to_vec(rt.alloc())?;
    for bytes in WHOLE {
        push(&mut wanted, bytes)?;
    }
    is(&rt, &out, &wanted);
    Ok(())
}

/// A file of the project with other bytes, or without the file, and what is said.
type Row = (&'static str, Option<&'static [u8]>, &'static [u8]);

const ROWS: [Row; 24] = [
    ("model.mx", None, b"missing model.mx\n"),
    ("table_m.csv", None, b"missing table_m.csv\n"),
    ("space_A.mx", None, b"missing space_A.mx\n"),
    ("refs.mx", None, b"missing refs.mx\n"),
    ("inputs.mx", None, b"missing inputs.mx\n"),
    ("model.mx", Some(b""), b"bad line model.mx 1\n"),
    (
        "model.mx",
        Some(b"mx project 2\n"),
        b"bad line model.mx 1\n",
    ),
    (
        "model.mx",
        Some(b"mx project 1"),
        b"refused refs.mx 1: NoSuchSpace\n",
    ),
    (
        "model.mx",
        Some(b"mx project 1\nspace A\ncells A.f() = 1\n"),
        b"bad line model.mx 3\n",
    ),
    (
        "model.mx",
        Some(b"mx project 1\nspace A B\n"),
        b"bad line model.mx 2\n",
    ),
    (
        "model.mx",
        Some(b"mx project 1\nspace A.B\n"),
        b"refused model.mx 2: NoSuchSpace\n",
    ),
    (
        "model.mx",
        Some(b"mx project 1\nspace A\nspace A\n"),
        b"refused model.mx 3: NameTaken\n",
    ),
    (
        "model.mx",
        Some(b"mx project 1\nspace A\nbases A: C\nspace C\n"),
        b"refused model.mx 3: NoSuchSpace\n",
    ),
    (
        "model.mx",
        Some(b"mx project 1\nspace A\nspace C\nbases A: C\nbases C: A\n"),
        b"refused model.mx 0: Cycle\n",
    ),
    (
        "model.mx",
        Some(
            b"mx project 1\r\nspace A\r\nspace A.B\r\nspace C\r\nbases C: A\r\ntable m\r\ntable m\r\n",
        ),
        b"written\n",
    ),
    (
        "table_m.csv",
        Some(b""),
        b"bad table table_m.csv: bad row 0\n",
    ),
    (
        "table_m.csv",
        Some(b"age,rate\n30,x\n"),
        b"bad table table_m.csv: bad number 1 1\n",
    ),
    ("table_m.csv", Some(b"age,\"a, b\"\n30,1\n"), b"written\n"),
    (
        "space_A.mx",
        Some(b""),
        b"refused inputs.mx 1: NoSuchMember\n",
    ),
    (
        "space_A.mx",
        Some(b"cells A.f(t) = 1\nref A.x = 1\n"),
        b"bad line space_A.mx 2\n",
    ),
    (
        "space_A.mx",
        Some(b"cells A.f(t) = 1 +\n"),
        b"bad formula space_A.mx 1: unexpected at 9\n",
    ),
    (
        "refs.mx",
        Some(b"ref A.s = to Nope\n"),
        b"refused refs.mx 1: NoSuchMember\n",
    ),
    ("refs.mx", Some(b"\n# nothing\n"), b"written\n"),
    (
        "inputs.mx",
        Some(b"input A.f(1) = 1\ninput A.f() = 2\n"),
        b"refused inputs.mx 2: WrongCount\n",
    ),
];

fn push_row(alloc: Global, out: &mut Vec<u8>, row: Row) -> Result<(), AllocError> {
    let mut files = folder(alloc, row.0, row.1)?;
    push_read(alloc, out, &mut files)
}

#[test]
fn other_projects_have_their_first_trouble(rt: HostRuntime) -> Result<(), Fail> {
    let mut out = Vec::new(rt.alloc());
    let mut wanted = Vec::new(rt.alloc());
    for row in ROWS {
        push_row(rt.alloc(), &mut out, row)?;
        push(&mut wanted, row.2)?;
    }
    is(&rt, &out, &wanted);
    Ok(())
}
