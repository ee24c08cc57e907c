//! Lists, and labels with their bytes.

use mx_list::items::Items;
use mx_list::list::List;
use mx_list::shared::Shared;
use mx_value::label::{Label, LabelRefusal};
use std::alloc::{AllocError, Global};
use std::process::Abort;
use std::test::Fail;

/// The bytes of labels, and the place of the first that is not printable.
const LABELS: [(&[u8], Option<usize>); 8] = [
    (b" az~09", None),
    (b"", None),
    (b"\x09", Some(0)),
    (b"\x1f", Some(0)),
    (b"a\x7f", Some(1)),
    (b"ab\n", Some(2)),
    (b"abc\xc3\xa9", Some(3)),
    (b"a\x00b\x00", Some(1)),
];

/// Whether these are the bytes of a label, or the place is that of the first which is not printable.
fn is_as_told(alloc: Global, bytes: &[u8], place: Option<usize>) -> Result<bool, AllocError> {
    match Label::new(alloc, bytes) {
        Ok(label) => Ok(place.is_none() && label.as_slice() == bytes && label.len() == bytes.len()),
        Err(LabelRefusal::NotPrintable(found)) => Ok(place == Some(found)),
        Err(LabelRefusal::NoMemory) => Err(AllocError),
    }
}

fn compare(rt: &impl Abort, alloc: Global, rows: &[(&[u8], Option<usize>)]) -> Result<(), Fail> {
    for (bytes, place) in rows {
        assert!(rt; is_as_told(alloc, bytes, *place)?, "{bytes:?}");
    }
    Ok(())
}

#[test]
fn labels_have_printable_bytes(rt: HostRuntime) -> Result<(), Fail> {
    compare(&rt, rt.alloc(), LABELS.as_slice())
}

#[test]
fn items_are_those_that_were_pushed(rt: HostRuntime) -> Result<(), Fail> {
    let mut items = Items::with_capacity(rt.alloc(), 2)?;
    assert!(rt; items.is_empty());
    items.push(10u8)?;
    items.push(20)?;
    items.reserve(5)?;
    items.push(30)?;
    assert!(rt; items.len() == 3 && items.get(1) == Some(&20) && items.get(3).is_none());
    assert!(rt; items.last() == Some(&30) && items.pop() == Some(30));
    items.truncate(1);
    assert!(rt; items.as_slice() == [10].as_slice());
    assert!(rt; items.into_vec().as_slice() == [10].as_slice());
    Ok(())
}

/// The list of these numbers.
fn list_of(alloc: Global, numbers: &[u8]) -> Result<List<u8>, AllocError> {
    List::from_vec(alloc, numbers.to_vec(alloc)?)
}

#[test]
fn a_list_equals_its_copy_alone(rt: HostRuntime) -> Result<(), Fail> {
    let list = list_of(rt.alloc(), &[1, 2, 3])?;
    let copy = list.copy()?;
    let none = List::empty(rt.alloc())?;
    assert!(rt; copy == list && none != list);
    assert!(rt;
        copy.as_slice() == [1, 2, 3].as_slice() && copy.last() == Some(&3) && copy.get(3).is_none()
    );
    assert!(rt; none.is_empty() && none.get(0).is_none() && none.last().is_none());
    Ok(())
}

#[test]
fn what_is_shared_equals_its_copy(rt: HostRuntime) -> Result<(), Fail> {
    let shared = Shared::new(rt.alloc(), 7u8)?;
    let copy = shared.copy()?;
    assert!(rt; *copy.get() == 7 && copy == shared);
    Ok(())
}
