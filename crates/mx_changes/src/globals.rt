//! The changes that edits of model references and of tables make.
ghost use Rattle.std.specs.Prelude.{◌≡◌, IfOk};
ghost use Rattle.mx_value.specs.Name.{same_name};
ghost use Rattle.mx_edit.specs.declared.edit.Edit.TheVariants as edit;
ghost use Rattle.mx_model.specs.Change.{change, define, without};

use crate::defined::with_copy;
use mx_edit::reference::RefValue;
use mx_edit::table::Table;
use mx_model::text::ModelText;
use mx_value::label::Label;
use std::alloc::{AllocError, Global};

/// The text with a reference of the model.
pub fn with_global(
    alloc: Global,
    text: &ModelText,
    name: &Label,
    value: &RefValue,
) -> Result<ModelText, AllocError>
    ensures { let globals = define same_name text.now.globals name.now value.now in
        IfOk result (λ t. t ≡ record text.now { globals = globals }) }
{
    let globals = with_copy(alloc, text.globals(), name, value)?;
    text.with_globals(alloc, globals)
}

/// The text without a reference of the model.
pub fn without_global(
    alloc: Global,
    text: &ModelText,
    name: &Label,
) -> Result<ModelText, AllocError>
    ensures { let globals = without same_name text.now.globals name.now in
        IfOk result (λ t. t ≡ record text.now { globals = globals }) }
{
    let globals = text.globals().without(alloc, name)?;
    text.with_globals(alloc, globals)
}

/// The text with a table.
pub fn with_table(
    alloc: Global,
    text: &ModelText,
    name: &Label,
    table: &Table,
) -> Result<ModelText, AllocError>
    ensures { IfOk result (λ t. t ≡ change text.now (edit.SetTable name.now table.now)) }
{
    let tables = with_copy(alloc, text.tables(), name, table)?;
    text.with_tables(alloc, tables)
}
