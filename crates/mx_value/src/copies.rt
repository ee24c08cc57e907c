//! Copies of values. Addresses, names and texts are shared; tuples are copied item by item.
ghost use Rattle.std.specs.Prelude.{◌≡◌, IfOk};

use crate::value::{CellsAt, Segment, Value};
use mx_list::items::Items;
use std::alloc::{AllocError, Global};

impl Value {
    /// An equal value.
    #[cycle(copy)]
    pub fn copy(&self, alloc: Global) -> Result<Value, AllocError>
        ensures { IfOk result (λ c. c ≡ self.now) }
    {
        match self {
            Value::Nothing => Ok(Value::Nothing),
            Value::Flag(b) => Ok(Value::Flag(*b)),
            Value::Int(n) => Ok(Value::Int(*n)),
            Value::Fix(x) => Ok(Value::Fix(*x)),
            Value::Text(t) => Ok(Value::Text(t.copy()?)),
            Value::Tup(items) => Ok(Value::Tup(copy_items(alloc, items)?)),
            Value::Space(at) => Ok(Value::Space(at.copy()?)),
            Value::Cells(at) => Ok(Value::Cells(at.copy()?)),
            Value::Table(t) => Ok(Value::Table(t.copy()?)),
        }
    }
}

/// Equal items, in a list of their own.
#[cycle(copy)]
pub fn copy_items(alloc: Global, items: &Items<Value>) -> Result<Items<Value>, AllocError>
    ensures { IfOk result (λ c. c ≡ items.now) }
{
    let mut copy = Items::with_capacity(alloc, items.len())?;
    for item in items.as_slice() {
        copy.push(item.copy(alloc)?)?;
    }
    Ok(copy)
}

impl Segment {
    /// An equal segment.
    pub fn copy(&self, alloc: Global) -> Result<Segment, AllocError>
        ensures { IfOk result (λ c. c ≡ self.now) }
    {
        match self {
            Segment::Name(name) => Ok(Segment::Name(name.copy()?)),
            Segment::Item(arguments) => Ok(Segment::Item(copy_items(alloc, arguments)?)),
        }
    }
}

impl CellsAt {
    /// Equal cells, sharing the address and the name.
    pub fn copy(&self) -> Result<CellsAt, AllocError>
        ensures { IfOk result (λ c. c ≡ self.now) }
    {
        Ok(CellsAt {
            space: self.space.copy()?,
            name: self.name.copy()?,
        })
    }
}
