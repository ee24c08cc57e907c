//! The files of a project.
ghost use Rattle.std.specs.Prelude.{◌≡◌, ◌≤◌, ◌↔◌, IsTrue, IfOk};
ghost use Rattle.mx_project.specs.Writing as spec;
ghost use Rattle.mx_project.specs.Writing.{IsShort};

use crate::folder::table_file;
use mx_edit::table::Table;
use mx_outside::MAX_FILE;
use mx_tables::write::write_table;
use mx_value::label::Label;
use std::alloc::{AllocError, Global};
use std::marker::Model;

/// A file of a project: its name within the folder, and its bytes.
#[derive(Drop)]
pub struct ProjectFile {
    pub name: Label,
    pub bytes: Vec<u8>,
}

impl Model for ProjectFile {
    ghost use Rattle.std.specs.Coded.{codes};
    ghost use Rattle.mx_project.specs.Writing.{File};

    ghost Value = { File };

    ghost coded = { Prim.hlevel codes };

    ghost view = { λ f. record { name = f.name; bytes = f.bytes.items } };
}

/// Whether a file is no longer than a file may be.
pub fn is_short(file: &ProjectFile) -> bool
    ensures { IsTrue result ↔ IsShort file.now }
{
    file.bytes.len() as u64 <= MAX_FILE
}

/// The file of a table.
pub fn file_of_table(alloc: Global, name: &Label, table: &Table) -> Result<ProjectFile, AllocError>
    ensures { IfOk result (λ file. file ≡ spec.file_of_table name.now table.now) }
{
    let name = table_file(alloc, name)?;
    let Ok(bytes) = write_table(alloc, table) else {
        return Err(AllocError);
    };
    return Ok(ProjectFile { name, bytes });
}
