//! Records of fields, read from and written to comma-separated values.
ghost use Rattle.std.specs.Prelude.{◌≡◌, IfOk};
ghost use Rattle.mx_tables.specs.Records.{records_of, text_of};

use csv::{ByteRecord, ReaderBuilder, Writer};
use std::alloc::{AllocError, AllocFailed, Global};
use std::marker::Model;

/// There was not enough memory.
#[derive(Clone, Copy, Debug, PartialEq, Eq, Drop)]
pub struct NoMemory;

/// A reader over bytes in memory and a writer into them fail for want of memory alone.
impl From<csv::Error> for NoMemory {
    fn from(_error: csv::Error) -> NoMemory {
        NoMemory
    }
}

impl<T: Drop> From<AllocFailed<T>> for NoMemory {
    fn from(_error: AllocFailed<T>) -> NoMemory {
        NoMemory
    }
}

impl From<AllocError> for NoMemory {
    fn from(_error: AllocError) -> NoMemory {
        NoMemory
    }
}

/// Records of fields. Contracts see each record as the list of its fields.
#[derive(Drop)]
pub struct Records {
    pub(crate) list: Vec<ByteRecord>,
}

impl Model for Records {
    ghost use Rattle.std.specs.Prelude.{map};
    ghost use Rattle.csv.specs.Records.{fields_of};
    ghost use Rattle.mx_tables.specs.Records.{Records as Plain};

    ghost Value = { Plain };

    ghost view = { λ r. map fields_of r.list.items };
}

/// The records of a text.
pub fn read_records(alloc: Global, text: &[u8]) -> Result<Records, NoMemory>
    ensures { IfOk result (λ records. records ≡ records_of text.now) }
{
    let reader = ReaderBuilder::new()
        .has_headers(false)
        .flexible(true)
        .from_reader(alloc, text);
    let mut list = Vec::new(alloc);
    for row in reader.into_byte_records() {
        list.push(row?)?;
    }
    Ok(Records { list })
}

/// The text of records of one length.
pub fn write_records(alloc: Global, records: &Records) -> Result<Vec<u8>, NoMemory>
    ensures { IfOk result (λ text. text.items ≡ text_of records.now) }
{
    let mut writer = Writer::from_writer(Vec::new(alloc));
    for row in &records.list {
        writer.write_byte_record(row)?;
    }
    match writer.into_inner() {
        Ok(text) => Ok(text),
        Err(_) => Err(NoMemory),
    }
}
