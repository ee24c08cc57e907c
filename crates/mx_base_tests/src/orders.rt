//! Orders of classes that Python refuses.

use mx_c3::linearise::linearise;
use mx_c3::lists::{BaseLists, Order};
use mx_c3::merge::merge;
use mx_c3::refusal::C3Refusal;
use mx_c3::space::SpaceId;
use std::alloc::{AllocError, Global};
use std::process::Abort;
use std::test::Fail;

/// The bases of classes by their places, and the classes that Python's refusal of the last names.
type Refused = (&'static [&'static [u32]], &'static [u32]);

const REFUSED: [Refused; 16] = [
    (&[&[], &[], &[0, 1], &[1, 0], &[2, 3]], &[0, 1]),
    (&[&[], &[0], &[0, 1]], &[0, 1]),
    (
        &[
            &[],
            &[],
            &[0],
            &[1],
            &[2],
            &[3],
            &[4, 0],
            &[5, 2],
            &[1, 6, 5, 0],
        ],
        &[1, 6, 5, 0],
    ),
    (
        &[
            &[],
            &[0],
            &[1, 0],
            &[1, 0],
            &[],
            &[2, 3, 4],
            &[4, 3],
            &[1, 4, 6, 0],
        ],
        &[1, 4, 6, 0],
    ),
    (
        &[&[], &[], &[1], &[], &[2], &[3], &[2, 3, 1, 5]],
        &[1, 3, 5],
    ),
    (&[&[], &[0], &[1, 0], &[1, 0, 2]], &[1, 0, 2]),
    (
        &[&[], &[], &[], &[2], &[0], &[3, 0], &[0, 4, 1, 3]],
        &[0, 4, 1, 3],
    ),
    (&[&[], &[0], &[1], &[0, 1, 2]], &[0, 1, 2]),
    (&[&[], &[], &[1, 0], &[2, 0], &[3], &[3, 2, 4]], &[3, 2, 4]),
    (&[&[], &[0], &[1, 0], &[1, 2, 0]], &[1, 2, 0]),
    (
        &[
            &[],
            &[0],
            &[1, 0],
            &[2],
            &[2],
            &[0],
            &[5, 4],
            &[6],
            &[0, 6, 1, 4],
        ],
        &[0, 6, 1, 4],
    ),
    (
        &[&[], &[], &[1], &[], &[0, 3], &[4], &[5, 3, 0, 4]],
        &[4, 3, 0],
    ),
    (
        &[
            &[],
            &[0],
            &[0],
            &[1, 2],
            &[0],
            &[2, 1, 4],
            &[],
            &[6, 4],
            &[2, 3, 0],
        ],
        &[2, 3, 0],
    ),
    (&[&[], &[0], &[], &[], &[2, 0, 1, 3]], &[0, 1, 3]),
    (
        &[&[], &[0], &[0], &[2, 1], &[3, 0], &[1], &[2], &[2, 3, 6, 4]],
        &[2, 3, 6, 4],
    ),
    (&[&[], &[0], &[1, 0], &[0], &[1], &[3], &[0, 2]], &[0, 2]),
];

/// The bases at these places.
fn bases_of(alloc: Global, places: &[u32]) -> Result<Order, AllocError> {
    let mut bases = Vec::new(alloc);
    for place in places {
        bases.push(SpaceId(*place))?;
    }
    Order::from_vec(alloc, bases)
}

/// The bases of each class.
fn lists_of(alloc: Global, classes: &[&[u32]]) -> Result<BaseLists, AllocError> {
    let mut lists = BaseLists::new(alloc);
    for places in classes {
        lists.push(bases_of(alloc, places)?)?;
    }
    Ok(lists)
}

/// Whether these are the places.
fn are(heads: &[SpaceId], places: &[u32]) -> bool {
    heads.len() == places.len()
        && heads
            .iter()
            .zip(places)
            .all(|(head, place)| head.0 == *place)
}

/// Whether the last class has no order, and these are the heads that are left.
fn is_refused(alloc: Global, lists: &BaseLists, places: &[u32]) -> Result<bool, AllocError> {
    let classes = lists.len();
    if classes == 0 || classes > 100 || !lists.is_in_order() {
        return Ok(false);
    }
    match linearise(alloc, lists, SpaceId((classes - 1) as u32)) {
        Ok(_) => Ok(false),
        Err(C3Refusal::NoOrder(heads)) => Ok(are(heads.as_slice(), places)),
        Err(C3Refusal::NoMemory) => Err(AllocError),
    }
}

fn compare(rt: &impl Abort, alloc: Global, rows: &[Refused]) -> Result<(), Fail> {
    for (classes, places) in rows {
        let lists = lists_of(alloc, classes)?;
        assert!(rt; is_refused(alloc, &lists, places)?, "{classes:?}");
    }
    Ok(())
}

#[test]
fn a_refusal_names_the_classes_that_python_names(rt: HostRuntime) -> Result<(), Fail> {
    compare(&rt, rt.alloc(), REFUSED.as_slice())
}

#[test]
fn no_lists_have_an_order(rt: HostRuntime) -> Result<(), Fail> {
    let Ok(order) = merge(rt.alloc(), &[]) else {
        return Err(Fail::from("refused"));
    };
    assert!(rt; order.as_slice().is_empty());
    Ok(())
}

#[test]
fn bases_that_are_set_anew_are_those(rt: HostRuntime) -> Result<(), Fail> {
    let mut lists = lists_of(rt.alloc(), &[&[], &[0]])?;
    let bases = bases_of(rt.alloc(), &[1])?;
    assert!(rt; lists.len() == 2 && lists.is_in_order());
    lists.set(SpaceId(0), bases.copy()?);
    assert!(rt; are(lists.bases(SpaceId(0)).as_slice(), &[1]));
    assert!(rt; lists.len() == 2 && !lists.is_in_order());
    Ok(())
}
