//! Keys in a map.

use mx_edit::key::Key;
use mx_list::list::List;
use mx_value::label::Label;
use mx_value::node::Path;
use std::alloc::Global;
use std::collections::HashMap;
use std::test::Fail;

/// The path `A`.
fn path(alloc: Global) -> Result<Path, Fail> {
    let mut names = Vec::new(alloc);
    names.push(Label::new(alloc, b"A")?)?;
    Ok(List::from_vec(alloc, names)?)
}

/// The key of the cells `A.f`.
fn cells(alloc: Global) -> Result<Key, Fail> {
    let path = path(alloc)?;
    Ok(Key::Cells(path, Label::new(alloc, b"f")?))
}

/// The key of the name `f` in `A`.
fn name(alloc: Global) -> Result<Key, Fail> {
    let path = path(alloc)?;
    Ok(Key::Name(path, Label::new(alloc, b"f")?))
}

fn found(map: &HashMap<Key, u8>, key: &Key) -> Option<u8> {
    map.get(key).copied()
}

#[test]
fn equal_keys_are_one_entry(rt: HostRuntime) -> Result<(), Fail> {
    let mut map: HashMap<Key, u8> = HashMap::new(rt.alloc());
    map.insert(cells(rt.alloc())?.copy()?, 5)?;
    assert!(rt; found(&map, &cells(rt.alloc())?) == Some(5));
    assert!(rt; found(&map, &name(rt.alloc())?).is_none());
    Ok(())
}
