//! The files of a project's folder.
ghost use Rattle.std.specs.Prelude.{◌≡◌, ◌++◌, IfOk};
ghost use Rattle.mx_project.specs.Folder as spec;

use mx_print::append::push;
use mx_value::label::Label;
use std::alloc::{AllocError, Global};

/// The name of a table's file.
pub fn table_file(alloc: Global, name: &Label) -> Result<Label, AllocError>
    ensures { IfOk result (λ file. file ≡ spec.table_file name.now) }
{
    joined(alloc, b"table_", name, b".csv")
}

/// The name of the file of a top space.
pub fn space_file(alloc: Global, top: &Label) -> Result<Label, AllocError>
    ensures { IfOk result (λ file. file ≡ spec.space_file top.now) }
{
    joined(alloc, b"space_", top, b".mx")
}

/// A name with bytes in front of it and behind it.
fn joined(alloc: Global, front: &[u8], name: &Label, back: &[u8]) -> Result<Label, AllocError>
    ensures { IfOk result (λ file. file ≡ front.now ++ (name.now ++ back.now)) }
{
    let mut bytes = Vec::new(alloc);
    push(&mut bytes, front)?;
    push(&mut bytes, name.as_slice())?;
    push(&mut bytes, back)?;
    label_of(alloc, bytes.as_slice())
}

/// The name of a file within a folder.
pub fn in_folder(alloc: Global, folder: &Label, name: &Label) -> Result<Label, AllocError>
    ensures { IfOk result (λ file. file ≡ spec.in_folder folder.now name.now) }
{
    let mut bytes = Vec::new(alloc);
    push(&mut bytes, folder.as_slice())?;
    push(&mut bytes, b"/")?;
    push(&mut bytes, name.as_slice())?;
    label_of(alloc, bytes.as_slice())
}

/// The label of printable bytes.
pub fn label_of(alloc: Global, bytes: &[u8]) -> Result<Label, AllocError>
    ensures { IfOk result (λ label. label ≡ bytes.now) }
{
    match Label::new(alloc, bytes) {
        Ok(label) => Ok(label),
        Err(_) => Err(AllocError),
    }
}
