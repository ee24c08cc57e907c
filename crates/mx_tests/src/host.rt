//! Files of the working folder, through the operating system.
use mx_host::HostFiles;
use mx_outside::{Files, Found, ReadFailure};
use std::alloc::Global;
use std::os::unix::fs::symlink;
use std::test::Fail;
use std::{fs, io};

/// What a read with a limit of eight bytes answers.
fn said<F: Files>(files: &mut F, alloc: Global, name: &str) -> &'static str {
    match files.read(alloc, name, 8) {
        Ok(Found::Bytes(bytes)) if bytes.as_slice() == b"one\ntwo\n".as_slice() => "both lines",
        Ok(Found::Bytes(bytes)) if bytes.is_empty() => "nothing",
        Ok(Found::Bytes(_)) => "other bytes",
        Ok(Found::Missing) => "missing",
        Ok(Found::TooBig) => "too big",
        Err(ReadFailure::Failed) => "failed",
        Err(ReadFailure::NoMemory) => "no memory",
    }
}

#[test]
fn a_file_holds_what_was_written(rt: HostRuntime) -> Result<(), Fail> {
    let alloc = rt.alloc();
    let mut files = HostFiles::new(&rt);
    assert!(rt; said(&mut files, alloc, "made/deep/a.txt") == "missing");
    assert!(rt; files.write(alloc, "made/deep/a.txt", b"one\ntwo\n").is_ok());
    assert!(rt; said(&mut files, alloc, "made/deep/a.txt") == "both lines");
    assert!(rt;
        files
            .write(alloc, "made/deep/a.txt", b"one\ntwo\n.")
            .is_ok()
    );
    assert!(rt; said(&mut files, alloc, "made/deep/a.txt") == "too big");
    assert!(rt; files.write(alloc, "made/deep/a.txt", b"").is_ok());
    assert!(rt; said(&mut files, alloc, "made/deep/a.txt") == "nothing");
    Ok(())
}

/// Makes a file, a link to it, a folder and a link to that.
fn make_links(host: &impl fs::Files) -> io::Result<()> {
    fs::create_dir_all(host, "real/folder")?;
    fs::write(host, "real/file", b"one\ntwo\n")?;
    symlink(host, "file", "real/link")?;
    symlink(host, "real", "around")
}

#[test]
fn what_is_no_plain_file_is_a_fault(rt: HostRuntime) -> Result<(), Fail> {
    let alloc = rt.alloc();
    make_links(&rt)?;
    let mut files = HostFiles::new(&rt);
    assert!(rt; said(&mut files, alloc, "real/file") == "both lines");
    assert!(rt; said(&mut files, alloc, "real/file/below") == "missing");
    for name in [
        "real/folder",
        "real/link",
        "around/file",
        "../real/file",
        "/etc/passwd",
        "",
    ] {
        assert!(rt; said(&mut files, alloc, name) == "failed");
        assert!(rt; files.write(alloc, name, b"x").is_err());
    }
    assert!(rt; files.write(alloc, "real/file/below", b"x").is_err());
    assert!(rt; said(&mut files, alloc, "real/file") == "both lines");
    Ok(())
}
