//! Tables: numbers by a whole key and by the name of a column.
ghost use Rattle.std.specs.Prelude.{◌≡◌, ◌<◌, ◌≤◌, [], slice_get, length, option_copied, IsTrue, IfOk, IfSome};
ghost use Rattle.mx_edit.specs.Table.{Answers, IsTable, is_number, is_column, are_columns, is_header, row_trouble, rows_trouble, table_trouble, entry_at, place_of, place_of_key, item_at, first_other, is_among};

use mx_list::items::Items;
use mx_list::list::List;
use mx_value::label::Label;
use mx_value::value::Value;
use std::alloc::{AllocError, Global};
use std::marker::Model;
use thiserror::Error;

/// The greatest number of columns, that of the keys among them.
const COLUMNS: usize = 120;

/// The greatest number of rows.
const ROWS: usize = 10_000;

/// The greatest number of bytes of a column's name.
const NAME: usize = 64;

/// A table: in each row a key, which stands in no other row, and a number for each column but the first, which is that
/// of the keys. It has 2 to 120 columns, names of 1 to 64 bytes, each once, and at most 10,000 rows. Contracts see its
/// `TableRows`.
#[derive(Drop)]
pub struct Table {
    columns: List<Label>,
    keys: List<i64>,
    rows: List<Items<Value>>,
}

/// Why columns, keys and rows make no table.
#[derive(Clone, Copy, Debug, PartialEq, Eq, Drop, Error)]
pub enum TableRefusal {
    /// There are more than 120 columns or more than 10,000 rows.
    #[error("too many columns or rows")]
    TooBig,
    /// A row, counted from 1, has another number of fields than there are columns, or a key that an earlier row has.
    /// For the head, which counts as 0: there are fewer than two names of columns, one has no bytes or more than 64,
    /// or one stands twice.
    #[error("row {0} does not fit the table")]
    BadRow(u32),
    /// The field of a row, counted from 1, and a column, counted from 0, is no number.
    #[error("the field of row {0} and column {1} is no number")]
    BadNumber(u32, u32),
    /// There was not enough memory.
    #[error("out of memory")]
    NoMemory,
}

impl From<AllocError> for TableRefusal {
    ghost use Rattle.std.specs.Prelude.{◌≡◌};
    ghost use Rattle.mx_edit.specs.declared.table.TableRefusal.TheVariants.{NoMemory};

    ghost from_gives = { λ _ refusal. refusal ≡ NoMemory };

    fn from(_error: AllocError) -> TableRefusal {
        TableRefusal::NoMemory
    }
}

impl Model for Table {
    ghost use Rattle.std.specs.Prelude.{◌≡◌, None, length};
    ghost use Rattle.std.specs.Coded.{codes};
    ghost use Rattle.mx_value.specs.contracts.value.Value as value;
    ghost use Rattle.mx_edit.specs.Rows.{TableRows};
    ghost use Rattle.mx_edit.specs.Table.{IsTable};

    ghost Value = { TableRows };

    ghost coded = { Prim.hlevel (codes, value.the_row.coded) };

    ghost view = { λ t. record { columns = t.columns; keys = t.keys; rows = t.rows } };

    ghost invariant = { λ t. IsTable (record { columns = t.columns; keys = t.keys; rows = t.rows }) };
}

/// Two tables are equal where their columns, keys and rows are, whatever they share.
impl PartialEq for Table {
    ghost use Rattle.std.specs.Cmp.{partial_equiv_from_equiv};
    ghost use Rattle.mx_edit.specs.Rows.{rows_eq, rows_equal};

    ghost eq = { rows_eq };

    ghost laws = { partial_equiv_from_equiv rows_equal };

    fn eq(&self, other: &Self) -> bool {
        self.columns == other.columns && self.keys == other.keys && self.rows == other.rows
    }
}

impl Eq for Table {
    ghost use Rattle.mx_edit.specs.Rows.{rows_equal};

    ghost laws = { rows_equal };
}

impl Table {
    #[tactic(auto, unfolding(crate::specs::Table::table_trouble))]
    /// The table of these columns, of which the first is that of the keys, and these rows, each with its key. What is
    /// refused is dropped.
    pub fn new(
        alloc: Global,
        columns: Vec<Label>,
        keys: Vec<i64>,
        rows: Vec<Items<Value>>,
    ) -> Result<Table, TableRefusal>
        requires { length keys.items ≡ length rows.items }
        ensures table { IfOk result
            (λ t. t ≡ record { columns = columns.items; keys = keys.items; rows = rows.items }) }
        ensures exact { Answers result
            (table_trouble
            (record { columns = columns.items; keys = keys.items; rows = rows.items })) }
    {
        if columns.len() > COLUMNS || keys.len() > ROWS {
            return Err(TableRefusal::TooBig);
        }
        if !is_header(columns.as_slice()) {
            return Err(TableRefusal::BadRow(0));
        }
        let trouble = rows_trouble(columns.len() - 1, keys.as_slice(), rows.as_slice());
        if let Some(refusal) = trouble {
            return Err(refusal);
        }
        Ok(Table {
            columns: List::from_vec(alloc, columns)?,
            keys: List::from_vec(alloc, keys)?,
            rows: List::from_vec(alloc, rows)?,
        })
    }

    /// The same table, which shares its columns, keys and rows.
    pub fn copy(&self) -> Result<Table, AllocError>
        ensures { IfOk result (λ c. c ≡ self.now) }
    {
        Ok(Table {
            columns: self.columns.copy()?,
            keys: self.keys.copy()?,
            rows: self.rows.copy()?,
        })
    }

    /// What every table keeps, for proofs: it has a row for each key, and there is no trouble with it. Does nothing when it
    /// runs.
    pub fn limits(&self)
        ensures { IsTable self.now }
    {
        let _ = &self.keys;
    }

    /// What stands in the row of a key and in a column, where both are there. The column of the keys is none of these.
    pub fn at(&self, key: i64, column: &Label) -> Option<&Value>
        ensures { option_copied result ≡ entry_at self.now key column.now }
    {
        let row = place_of_key(self.keys.as_slice(), &key);
        let place = place_of(self.columns.as_slice(), column);
        item_at(self.rows.as_slice(), row, place)
    }

    /// The name of a column, counted from 0, which is that of the keys.
    pub fn column_at(&self, place: u32) -> Option<&Label>
        ensures { option_copied result ≡ slice_get self.now.columns place }
    {
        self.columns.get(place as usize)
    }

    /// The key of a row, counted from 0.
    pub fn key_at(&self, place: u32) -> Option<i64>
        ensures { result ≡ slice_get self.now.keys place }
    {
        self.keys.get(place as usize).copied()
    }

    /// The names of the columns, of which the first is that of the keys.
    pub fn columns(&self) -> &[Label]
        ensures { result.now ≡ self.now.columns }
    {
        self.columns.as_slice()
    }

    /// The keys of the rows.
    pub fn keys(&self) -> &[i64]
        ensures { result.now ≡ self.now.keys }
    {
        self.keys.as_slice()
    }

    /// The numbers of the rows, in each one for each column but the first.
    pub fn rows(&self) -> &[Items<Value>]
        ensures { result.now ≡ self.now.rows }
    {
        self.rows.as_slice()
    }
}

/// What stands in a row at a place, where these are there.
fn item_at(rows: &[Items<Value>], row: Option<usize>, place: Option<usize>) -> Option<&Value>
    ensures { option_copied result ≡ item_at rows.now row place }
{
    let (Some(row), Some(place)) = (row, place) else {
        return None;
    };
    let Some(items) = rows.get(row) else {
        return None;
    };
    items.get(place)
}

/// The place of a column among those behind the first.
#[tactic(auto, unfolding(crate::specs::Table::place_of))]
fn place_of(columns: &[Label], column: &Label) -> Option<usize>
    ensures { result ≡ place_of columns.now column.now }
{
    columns.iter().skip(1).position(|other| *other == *column)
}

/// Whether a value may stand in a table.
#[tactic(auto, unfolding(crate::specs::Table::is_number))]
fn is_number(value: &Value) -> bool
    ensures { result ≡ is_number value.now }
{
    match value {
        Value::Int(_) => true,
        Value::Fix(_) => true,
        _ => false,
    }
}

/// Whether this can be the name of a column.
#[tactic(auto, unfolding(crate::specs::Table::is_column))]
fn is_column(name: &Label) -> bool
    ensures { result ≡ is_column name.now }
{
    0 < name.len() && name.len() <= NAME
}

/// Whether these can be the names of columns.
#[tactic(auto, unfolding(crate::specs::Table::is_header))]
fn is_header(columns: &[Label]) -> bool
    ensures exact { result ≡ is_header columns.now }
    ensures several { IsTrue result → 2 ≤ length columns.now }
{
    columns.len() >= 2 && are_columns(columns)
}

/// Whether each is the name of a column, and stands once.
#[tactic(auto, unfolding(crate::specs::Table::are_columns))]
fn are_columns(columns: &[Label]) -> bool
    ensures { result ≡ are_columns [] columns.now }
{
    for (place, name) in columns.iter().enumerate() {
        if !is_column(name) {
            return false;
        }
        if is_among(&columns[..place], name) {
            return false;
        }
    }
    true
}

/// Whether the name is one of these.
fn is_among(names: &[Label], name: &Label) -> bool
    ensures { result ≡ is_among names.now name.now }
{
    names.iter().any(|other| *other == *name)
}

/// The first trouble of these rows.
#[tactic(auto, unfolding(crate::specs::Table::rows_trouble))]
fn rows_trouble(width: usize, keys: &[i64], rows: &[Items<Value>]) -> Option<TableRefusal>
    requires keyed { length keys.now ≡ length rows.now }
    requires few { length keys.now ≤ 10000 }
    requires narrow { width < 120 }
    ensures { result ≡ rows_trouble width 1 [] keys.now rows.now }
{
    for (place, row) in rows.iter().enumerate() {
        let trouble = row_trouble(width, place as u32 + 1, &keys[..place], &keys[place], row);
        if let Some(refusal) = trouble {
            return Some(refusal);
        }
    }
    None
}

#[tactic(auto, unfolding(crate::specs::Table::row_trouble))]
/// The trouble of a row of this number, where earlier rows have these keys.
fn row_trouble(
    width: usize,
    number: u32,
    earlier: &[i64],
    key: &i64,
    row: &Items<Value>,
) -> Option<TableRefusal>
    requires { width < 120 }
    ensures { result ≡ row_trouble width number earlier.now key.now row.now }
{
    if row.len() != width {
        return Some(TableRefusal::BadRow(number));
    }
    if let Some(place) = first_other(row.as_slice()) {
        return Some(TableRefusal::BadNumber(number, place as u32 + 1));
    }
    match place_of_key(earlier, key) {
        Some(_) => Some(TableRefusal::BadRow(number)),
        None => None,
    }
}

/// Where the first value stands that is no number.
fn first_other(row: &[Value]) -> Option<usize>
    ensures place { result ≡ first_other row.now }
    ensures within { IfSome result (λ place. place < length row.now) }
{
    row.iter().position(|value| !is_number(value))
}

/// The row of a key.
fn place_of_key(keys: &[i64], key: &i64) -> Option<usize>
    ensures { result ≡ place_of_key keys.now key.now }
{
    keys.iter().position(|other| *other == *key)
}
