//! What holds of the tables of a text.
ghost use Rattle.std.specs.List.{All};
ghost use Rattle.mx_edit.specs.Rows.{TableRows};
ghost use Rattle.mx_edit.specs.Table.{IsTable};
ghost use Rattle.mx_model.specs.Records.{Name};
ghost use Rattle.mx_model.specs.Tables.{HasTables};

use crate::text::ModelText;
use mx_edit::table::Table;
use mx_members::members::Members;
use mx_value::label::Label;

impl ModelText {
    /// What every table keeps, of each table of the text, for proofs. Goes over the tables and changes nothing.
    pub fn table_limits(&self)
        ensures { HasTables self.now }
    {
        all_limits(self.tables());
    }
}

/// What every table keeps, of each of these.
fn all_limits(tables: &Members<Label, Table>)
    ensures { All (λ (t : Name × TableRows). IsTable t.1) tables.now }
{
    for place in 0..tables.count() {
        let Some((_, table)) = tables.at(place) else {
            unreachable!()
        };
        table.limits();
    }
}
