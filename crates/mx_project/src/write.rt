//! How the files of a project are written.
ghost use Rattle.std.specs.Prelude.{◌≡◌, ◌≤◌, OnOk, IfErr, IsErrOf};
ghost use Rattle.mx_outside.specs.Files.{with_bytes};
ghost use Rattle.mx_outside.specs.Outside.{Rose};
ghost use Rattle.mx_project.specs.Folder as spec;
ghost use Rattle.mx_project.specs.Writing.{with_files, IsNotSet, StopsAt, CountsWrites, TellsBig, IsWritten, IsUnwritten};

use crate::files::ProjectFile;
use crate::folder::in_folder;
use crate::found::text_of;
use crate::project::{first_too_big, project_files};
use crate::refusal::ProjectRefusal;
use mx_model::text::ModelText;
use mx_outside::{Files, WriteFailure};
use mx_value::label::Label;
use mx_world::world::World;
use std::alloc::Global;

/// Writes the canonical files of a model in a folder, one after the other. Nothing is written where one of them is longer than a
/// file may be. After a fault all files but one are as they were or whole, and want of memory leaves the first files whole.
pub fn write_project<F: Files>(
    alloc: Global,
    world: &World,
    dir: &Label,
    files: &mut F,
) -> Result<(), ProjectRefusal>
    ensures written { OnOk result
        (IsWritten world.now dir.now (F.held files.old) (F.held files.new)) }
    ensures refused { IfErr result
        (IsUnwritten world.now dir.now (F.held files.old) (F.held files.new)) }
    ensures no_read { F.read_faults files.new ≡ F.read_faults files.old }
    ensures later { F.write_faults files.old ≤ F.write_faults files.new }
    ensures kept { OnOk result (F.write_faults files.new ≡ F.write_faults files.old) }
    ensures failed { IsErrOf result ProjectRefusal.WriteFault →
        Rose (F.write_faults files.old) (F.write_faults files.new) }
    ensures counted { CountsWrites result (F.write_faults files.old) (F.write_faults files.new) }
{
    return write_text(alloc, world.text(), dir, files);
}

/// Writes the files of a text.
fn write_text<F: Files>(
    alloc: Global,
    text: &ModelText,
    dir: &Label,
    files: &mut F,
) -> Result<(), ProjectRefusal>
    ensures written { OnOk result
        (IsWritten text.now dir.now (F.held files.old) (F.held files.new)) }
    ensures refused { IfErr result
        (IsUnwritten text.now dir.now (F.held files.old) (F.held files.new)) }
    ensures counted { CountsWrites result (F.write_faults files.old) (F.write_faults files.new) }
    ensures no_read { F.read_faults files.new ≡ F.read_faults files.old }
    ensures later { F.write_faults files.old ≤ F.write_faults files.new }
{
    let Ok(all) = project_files(alloc, text) else {
        return Err(ProjectRefusal::NoMemory);
    };
    match first_too_big(all.as_slice()) {
        Some(big) => return Err(too_big(&big.name)),
        None => return write_files(alloc, dir, all.as_slice(), files),
    }
}

/// Why nothing is written where the file of this name is too big.
fn too_big(name: &Label) -> ProjectRefusal
    ensures { TellsBig name.now result }
{
    match name.copy() {
        Ok(told) => ProjectRefusal::TooBig(told),
        Err(_) => ProjectRefusal::NoMemory,
    }
}

/// Writes a file within a folder.
fn write_file<F: Files>(
    alloc: Global,
    folder: &Label,
    file: &ProjectFile,
    files: &mut F,
) -> Result<(), ProjectRefusal>
    ensures set { OnOk result (F.held files.new ≡ with_bytes (F.held files.old)
        (spec.in_folder folder.now file.now.name) file.now.bytes) }
    ensures left { IfErr result (IsNotSet folder.now file.now
        (F.held files.old) (F.held files.new)) }
    ensures counted { CountsWrites result (F.write_faults files.old) (F.write_faults files.new) }
    ensures no_read { F.read_faults files.new ≡ F.read_faults files.old }
    ensures later { F.write_faults files.old ≤ F.write_faults files.new }
{
    let Ok(whole) = in_folder(alloc, folder, &file.name) else {
        return Err(ProjectRefusal::NoMemory);
    };
    match files.write(alloc, text_of(&whole), file.bytes.as_slice()) {
        Ok(()) => return Ok(()),
        Err(WriteFailure::Failed) => return Err(ProjectRefusal::WriteFault),
        Err(WriteFailure::NoMemory) => return Err(ProjectRefusal::NoMemory),
    }
}

/// Writes files within a folder, one after the other.
fn write_files<F: Files>(
    alloc: Global,
    folder: &Label,
    all: &[ProjectFile],
    files: &mut F,
) -> Result<(), ProjectRefusal>
    ensures set { OnOk result
        (F.held files.new ≡ with_files (F.held files.old) folder.now all.now) }
    ensures left { IfErr result (StopsAt folder.now all.now
        (F.held files.old) (F.held files.new)) }
    ensures counted { CountsWrites result (F.write_faults files.old) (F.write_faults files.new) }
    ensures no_read { F.read_faults files.new ≡ F.read_faults files.old }
    ensures later { F.write_faults files.old ≤ F.write_faults files.new }
{
    for (i, file) in all.iter().enumerate() {
        match write_file(alloc, folder, file, files) {
            Ok(()) => {}
            Err(why) => return Err(why),
        }
    }
    return Ok(());
}
