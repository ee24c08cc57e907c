//! The bytes of a project's files.
ghost use Rattle.std.specs.Prelude.{◌≡◌, ◌≤◌, length, IfOk, IfErr};
ghost use Rattle.mx_outside.specs.Files.{Finds, most_bytes};
ghost use Rattle.mx_project.specs.Folder as spec;
ghost use Rattle.mx_project.specs.Reading.{GivesNone, CountsReads};

use crate::folder::in_folder;
use crate::refusal::ProjectRefusal;
use mx_outside::{Files, Found, MAX_FILE, ReadFailure};
use mx_value::label::Label;
use std::alloc::Global;
use std::str;

/// The bytes of a file within a folder, or why there are none.
pub fn find_file<F: Files>(
    alloc: Global,
    folder: &Label,
    name: &Label,
    files: &mut F,
) -> Result<Vec<u8>, ProjectRefusal>
    ensures bytes { IfOk result (λ bytes. Finds (F.held files.old)
        (spec.in_folder folder.now name.now) most_bytes (Found.Bytes bytes)) }
    ensures within { IfOk result (λ bytes. length bytes.items ≤ most_bytes) }
    ensures refused { IfErr result (GivesNone (F.held files.old) folder.now name.now) }
    ensures held { F.held files.new ≡ F.held files.old }
    ensures counted { CountsReads result (F.read_faults files.old) (F.read_faults files.new) }
    ensures no_write { F.write_faults files.new ≡ F.write_faults files.old }
{
    let Ok(told) = name.copy() else {
        return Err(ProjectRefusal::NoMemory);
    };
    let Ok(whole) = in_folder(alloc, folder, name) else {
        return Err(ProjectRefusal::NoMemory);
    };
    match files.read(alloc, text_of(&whole), MAX_FILE) {
        Ok(Found::Bytes(bytes)) => return Ok(bytes),
        Ok(Found::Missing) => return Err(ProjectRefusal::Missing(told)),
        Ok(Found::TooBig) => return Err(ProjectRefusal::TooBig(told)),
        Err(ReadFailure::Failed) => return Err(ProjectRefusal::ReadFault),
        Err(ReadFailure::NoMemory) => return Err(ProjectRefusal::NoMemory),
    }
}

/// A name as a text. All bytes of a label are printable.
pub fn text_of(name: &Label) -> &str
    ensures { result.now ≡ name.now }
{
    match str::from_utf8(name.as_slice()) {
        Ok(text) => text,
        Err(_) => unreachable!(),
    }
}
