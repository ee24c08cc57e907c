//! Values put together by hand, and how they are measured.

use mx_list::items::Items;
use mx_list::list::List;
use mx_value::fixed::Fixed;
use mx_value::label::Label;
use mx_value::nesting::nesting_of_value;
use mx_value::plain::is_plain;
use mx_value::size::size_of_value;
use mx_value::value::{Addr, CellsAt, Segment, Value};
use std::alloc::Global;
use std::test::Fail;

pub fn label(alloc: Global, text: &[u8]) -> Result<Label, Fail> {
    Ok(Label::new(alloc, text)?)
}

/// The list of one value.
pub fn one(alloc: Global, value: Value) -> Result<Items<Value>, Fail> {
    let mut items = Items::new(alloc);
    items.push(value)?;
    Ok(items)
}

/// `("abc",)`.
fn inner(alloc: Global) -> Result<Value, Fail> {
    let text = label(alloc, b"abc")?;
    Ok(Value::Tup(one(alloc, Value::Text(text))?))
}

/// `1, ("abc",)`.
pub fn nested(alloc: Global) -> Result<Items<Value>, Fail> {
    let inner = inner(alloc)?;
    let mut items = one(alloc, Value::Int(1))?;
    items.push(inner)?;
    Ok(items)
}

/// `Life[30]`.
pub fn place(alloc: Global) -> Result<Addr, Fail> {
    let life = label(alloc, b"Life")?;
    let arguments = one(alloc, Value::Int(30))?;
    let mut segments = Vec::new(alloc);
    segments.push(Segment::Name(life))?;
    segments.push(Segment::Item(arguments))?;
    Ok(List::from_vec(alloc, segments)?)
}

/// Whether a value has this size and this nesting, and is plain or not.
fn measures(value: &Value, size: u64, nesting: u32, plain: bool) -> bool {
    size_of_value(value) == size && nesting_of_value(value) == nesting && is_plain(value) == plain
}

#[test]
fn plain_values_are_measured(rt: HostRuntime) -> Result<(), Fail> {
    let alloc = rt.alloc();
    assert!(rt; measures(&Value::Nothing, 1, 0, true));
    assert!(rt; measures(&Value::Flag(true), 1, 0, true));
    assert!(rt; measures(&Value::Int(-7), 1, 0, true));
    assert!(rt; measures(&Value::Fix(Fixed::from_int(1)?), 1, 0, true));
    assert!(rt; measures(&Value::Text(label(alloc, b"abc")?), 4, 0, true));
    assert!(rt; measures(&Value::Tup(Items::new(alloc)), 1, 1, true));
    assert!(rt; measures(&Value::Tup(nested(alloc)?), 7, 2, true));
    Ok(())
}

#[test]
fn spaces_cells_and_tables_are_not_plain(rt: HostRuntime) -> Result<(), Fail> {
    let name = label(rt.alloc(), b"claims")?;
    let space = place(rt.alloc())?;
    assert!(rt; measures(&Value::Table(name.copy()?), 1, 0, false));
    assert!(rt; measures(&Value::Space(space.copy()?), 2, 0, false));
    assert!(rt; measures(&Value::Cells(CellsAt { space, name }), 2, 0, false));
    Ok(())
}
