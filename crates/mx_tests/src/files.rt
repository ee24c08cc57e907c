//! Files in memory: what each call gives, on a line each.

use crate::said::is;
use mx_outside::{Files, Found, MemFiles, ReadFailure, SureFiles, WriteFailure};
use mx_print::append::push;
use std::alloc::{AllocError, Global};
use std::test::Fail;

fn push_line(out: &mut Vec<u8>, line: &[u8]) -> Result<(), AllocError> {
    push(out, line)?;
    push(out, b"\n")
}

fn push_read<F: Files>(
    alloc: Global,
    out: &mut Vec<u8>,
    files: &mut F,
    name: &str,
    limit: u64,
) -> Result<(), AllocError> {
    match files.read(alloc, name, limit) {
        Ok(Found::Bytes(bytes)) => push_line(out, &bytes),
        Ok(Found::Missing) => push_line(out, b"missing"),
        Ok(Found::TooBig) => push_line(out, b"too big"),
        Err(ReadFailure::Failed) => push_line(out, b"failed"),
        Err(ReadFailure::NoMemory) => Err(AllocError),
    }
}

fn push_write<F: Files>(
    alloc: Global,
    out: &mut Vec<u8>,
    files: &mut F,
    name: &str,
    bytes: &[u8],
) -> Result<(), AllocError> {
    match files.write(alloc, name, bytes) {
        Ok(()) => push_line(out, b"written"),
        Err(WriteFailure::Failed) => push_line(out, b"failed"),
        Err(WriteFailure::NoMemory) => Err(AllocError),
    }
}

fn push_held(out: &mut Vec<u8>, bytes: Option<&[u8]>) -> Result<(), AllocError> {
    match bytes {
        Some(bytes) => push_line(out, bytes),
        None => push_line(out, b"none"),
    }
}

fn entry(alloc: Global, name: &str, text: &[u8]) -> Result<(String, Vec<u8>), AllocError> {
    let name = String::from_str(alloc, name)?;
    Ok((name, text.to_vec(alloc)?))
}

fn one_file(alloc: Global) -> Result<Vec<(String, Vec<u8>)>, AllocError> {
    let mut files = Vec::new(alloc);
    match files.push(entry(alloc, "t.csv", b"age,rate")?) {
        Ok(()) => Ok(files),
        Err(_) => Err(AllocError),
    }
}

fn push_finds<F: Files>(alloc: Global, out: &mut Vec<u8>, files: &mut F) -> Result<(), AllocError> {
    push_read(alloc, out, files, "t.csv", 8)?;
    push_read(alloc, out, files, "t.csv", 7)?;
    push_read(alloc, out, files, "T.csv", 9)
}

#[test]
fn a_read_finds_the_bytes_up_to_its_limit(rt: HostRuntime) -> Result<(), Fail> {
    let mut files = SureFiles::new(one_file(rt.alloc())?);
    let mut out = Vec::new(rt.alloc());
    push_finds(rt.alloc(), &mut out, &mut files)?;
    is(&rt, &out, "age,rate\ntoo big\nmissing\n");
    Ok(())
}

fn push_sets(alloc: Global, out: &mut Vec<u8>, files: &mut SureFiles) -> Result<(), AllocError> {
    push_write(alloc, out, files, "u", b"1")?;
    push_write(alloc, out, files, "t.csv", b"2")?;
    push_held(out, files.get("u"))?;
    push_held(out, files.get("t.csv"))?;
    push_held(out, files.get("v"))
}

#[test]
fn a_write_sets_one_name(rt: HostRuntime) -> Result<(), Fail> {
    let mut files = SureFiles::new(one_file(rt.alloc())?);
    let mut out = Vec::new(rt.alloc());
    push_sets(rt.alloc(), &mut out, &mut files)?;
    is(&rt, &out, "written\nwritten\n1\n2\nnone\n");
    Ok(())
}

fn push_faults(alloc: Global, out: &mut Vec<u8>, files: &mut MemFiles) -> Result<(), AllocError> {
    push_write(alloc, out, files, "u", b"1")?;
    push_write(alloc, out, files, "u", b"2")?;
    push_read(alloc, out, files, "u", 9)?;
    push_read(alloc, out, files, "u", 9)?;
    push_held(out, files.get("t.csv"))
}

#[test]
fn the_named_calls_fail_and_change_nothing(rt: HostRuntime) -> Result<(), Fail> {
    let fails = vec![in rt.alloc(); 2u64, 3]?;
    let mut files = MemFiles::new(one_file(rt.alloc())?, fails);
    let mut out = Vec::new(rt.alloc());
    push_faults(rt.alloc(), &mut out, &mut files)?;
    is(&rt, &out, "written\nfailed\nfailed\n1\nage,rate\n");
    Ok(())
}
