//! Copies of values, nodes and reads, and what equals what.

use crate::values::{label, nested, one, place};
use mx_list::items::Items;
use mx_list::list::List;
use mx_value::copies::copy_items;
use mx_value::namespace::Namespace;
use mx_value::node::{Node, SharedNode};
use mx_value::read::Read;
use mx_value::value::{CellsAt, Segment, Value};
use std::alloc::Global;
use std::collections::HashMap;
use std::test::Fail;

/// Whether a value equals its copy.
fn is_copied(alloc: Global, value: &Value) -> Result<bool, Fail> {
    Ok(value.copy(alloc)? == *value)
}

#[test]
fn values_equal_their_copies(rt: HostRuntime) -> Result<(), Fail> {
    let alloc = rt.alloc();
    assert!(rt; is_copied(alloc, &Value::Tup(nested(alloc)?))?);
    assert!(rt; is_copied(alloc, &Value::Space(place(alloc)?))?);
    let items = nested(alloc)?;
    assert!(rt; copy_items(alloc, &items)? == items);
    let segment = Segment::Item(items);
    assert!(rt; segment.copy(alloc)? == segment);
    Ok(())
}

#[test]
fn cells_and_namespaces_equal_their_copies(rt: HostRuntime) -> Result<(), Fail> {
    let alloc = rt.alloc();
    let name = label(alloc, b"claims")?;
    let space = place(alloc)?;
    let cells = CellsAt { space, name };
    assert!(rt; cells.copy()? == cells);
    let source = List::empty(alloc)?;
    let overlay = List::empty(alloc)?;
    let at = cells.space;
    let namespace = Namespace {
        at,
        source,
        overlay,
    };
    assert!(rt; namespace.copy()? == namespace);
    Ok(())
}

/// `Life[30].claims(t)`.
fn claims(alloc: Global, t: i64) -> Result<Node, Fail> {
    let space = place(alloc)?;
    let name = label(alloc, b"claims")?;
    Ok(Node::Cell(space, name, one(alloc, Value::Int(t))?))
}

#[test]
fn nodes_equal_their_copies_alone(rt: HostRuntime) -> Result<(), Fail> {
    let alloc = rt.alloc();
    let cells = claims(alloc, 3)?;
    let item = Node::Item(place(alloc)?, Items::new(alloc));
    assert!(rt; cells.copy(alloc)? == cells && item != cells);
    assert!(rt; item.copy(alloc)? == item);
    Ok(())
}

/// Whether a read equals its copy.
fn is_read_copied(read: &Read) -> Result<bool, Fail> {
    Ok(read.copy()? == *read)
}

#[test]
fn reads_of_names_equal_their_copies_alone(rt: HostRuntime) -> Result<(), Fail> {
    let name = label(rt.alloc(), b"rate")?;
    let reference = Read::Ref(place(rt.alloc())?, name.copy()?);
    assert!(rt; is_read_copied(&reference)?);
    let global = Read::Global(name.copy()?);
    let table = Read::Table(name);
    assert!(rt; is_read_copied(&global)? && is_read_copied(&table)? && global != table);
    Ok(())
}

#[test]
fn a_read_of_a_node_equals_its_copy(rt: HostRuntime) -> Result<(), Fail> {
    let node = claims(rt.alloc(), 1)?;
    let asked = Read::Node(SharedNode::new(rt.alloc(), node)?);
    assert!(rt; is_read_copied(&asked)?);
    Ok(())
}

/// Puts a node into a map with its number.
fn put(alloc: Global, map: &mut HashMap<Node, u8>, t: i64, number: u8) -> Result<(), Fail> {
    map.insert(claims(alloc, t)?, number)?;
    Ok(())
}

#[test]
fn equal_nodes_are_one_key(rt: HostRuntime) -> Result<(), Fail> {
    let alloc = rt.alloc();
    let mut map = HashMap::new(alloc);
    put(alloc, &mut map, 1, 10)?;
    put(alloc, &mut map, 2, 20)?;
    put(alloc, &mut map, 1, 30)?;
    assert!(rt; map.get(&claims(alloc, 1)?) == Some(&30));
    assert!(rt; map.get(&claims(alloc, 3)?).is_none() && map.len() == 2);
    Ok(())
}
