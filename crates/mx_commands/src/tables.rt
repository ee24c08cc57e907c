//! Tables from files.
ghost use Rattle.std.specs.Prelude.{◌≡◌, ◌≤◌, [], OnOk, IsErrOf};
ghost use Rattle.mx_edit.specs.declared.table.TableRefusal.{TableRefusal};
ghost use Rattle.mx_outside.specs.Outside.{Rose};
ghost use Rattle.mx_commands.specs.Step.{SetsTable, SetsFound, SetsSaid};
ghost use Rattle.mx_tables.specs.Reading.{table_of};

use crate::changes::edit;
use crate::command::Interpreter;
use mx_edit::edit::Edit;
use mx_outside::{Files, Found, MAX_FILE, ReadFailure};
use mx_tables::read::read_table;
use mx_text::blocks::{push_missing_block, push_table_block, push_too_big_block};
use mx_value::label::Label;
use std::alloc::AllocError;
use std::str;

impl Interpreter {
    /// Sets what a file says as the table of this name.
    pub(crate) fn set_table<F: Files>(
        &mut self,
        name: Label,
        file: &Label,
        files: &mut F,
    ) -> Result<(), ReadFailure>
        requires { self.old.block.items ≡ [] }
        ensures sets { OnOk result (SetsTable (F.held files.old) self.old.engine name file.now
            self.new.block.items self.new.engine) }
        ensures unchanged { IsErrOf result ReadFailure.Failed → self.new.engine ≡ self.old.engine }
        ensures held { F.held files.new ≡ F.held files.old }
        ensures kept { OnOk result (F.read_faults files.new ≡ F.read_faults files.old) }
        ensures later { F.read_faults files.old ≤ F.read_faults files.new }
        ensures failed { IsErrOf result ReadFailure.Failed →
            Rose (F.read_faults files.old) (F.read_faults files.new) }
        ensures no_write { F.write_faults files.new ≡ F.write_faults files.old }
    {
        let found = match files.read(self.alloc, name_of(file), MAX_FILE) {
            Ok(found) => found,
            Err(failure) => return Err(failure),
        };
        self.set_found(name, file, &found)?;
        Ok(())
    }

    /// Sets what was found as the table of this name.
    fn set_found(&mut self, name: Label, file: &Label, found: &Found) -> Result<(), AllocError>
        requires { self.old.block.items ≡ [] }
        ensures { OnOk result (SetsFound self.old.engine name file.now found.now
            self.new.block.items self.new.engine) }
    {
        match found {
            Found::Missing => push_missing_block(&mut self.block, file),
            Found::TooBig => push_too_big_block(&mut self.block, file),
            Found::Bytes(bytes) => self.set_said(name, bytes.as_slice()),
        }
    }

    /// Sets what a text says as the table of this name.
    fn set_said(&mut self, name: Label, text: &[u8]) -> Result<(), AllocError>
        requires { self.old.block.items ≡ [] }
        ensures { OnOk result (SetsSaid self.old.engine name (table_of text.now)
            self.new.block.items self.new.engine) }
    {
        match read_table(self.alloc, text) {
            Ok(table) => {
                let change = Edit::SetTable { name, table };
                edit(&mut self.engine, &mut self.block, &change)
            }
            Err(refusal) => push_table_block(&mut self.block, refusal),
        }
    }
}

/// The name of a file as a text. All bytes of a label are printable.
fn name_of(file: &Label) -> &str
    ensures { result.now ≡ file.now }
{
    match str::from_utf8(file.as_slice()) {
        Ok(name) => name,
        Err(_) => unreachable!(),
    }
}
