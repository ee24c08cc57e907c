//! Reading and writing of records and of tables are inverse.
ghost use Rattle.std.specs.Prelude.{◌≡◌, Ok};
ghost use Rattle.mx_edit.specs.Rows.{TableRows};
ghost use Rattle.mx_tables.specs.Held.{IsHeld};
ghost use Rattle.mx_tables.specs.Reading.{table_of};
ghost use Rattle.mx_tables.specs.Records.{Records, records_of, text_of, AreWhole};
ghost use Rattle.mx_tables.specs.Writing.{table_text};

/// Records of which each has a field, and whose text begins with no mark of a byte order, are those of their text.
pub fn records_read_back()
    ensures { (all : Records) → AreWhole all → records_of (text_of all) ≡ all }
{}

/// The text of a table that a program holds says that table.
pub fn tables_read_back()
    ensures { (t : TableRows) → IsHeld t → table_of (table_text t) ≡ Ok t }
{}
