//! The linearisation of one space.
ghost use Rattle.std.specs.Prelude.{◌≡◌, ◌<◌, Some, None, [], ◌∷◌, ◌++◌, length, replicate, MatchOption, IfOk};
ghost use Rattle.mx_c3.specs.Lists.{AllDistinct};
ghost use Rattle.mx_c3.specs.Merge.{merge, put, Answers};
ghost use Rattle.mx_c3.specs.Known.{known, first_unknown, orders_of};
ghost use Rattle.mx_c3.specs.Linearisation.{c3, AreSound, IsOrder};

use crate::lists::{BaseLists, Order};
use crate::merge::merge_onto;
use crate::refusal::C3Refusal;
use crate::remaining::Remaining;
use crate::space::SpaceId;
use crate::table::Table;
use std::alloc::{AllocError, Global};

/// The order of a space: itself, then the merge of its bases' orders and of the list of its bases.
///
/// Where a base has no order, the heads are those of the first such base. Each space that is reached is linearised once.
pub fn linearise(alloc: Global, lists: &BaseLists, space: SpaceId) -> Result<Order, C3Refusal>
    requires space { space.0 < length lists.now }
    requires sound { AreSound lists.now }
    ensures exact { Answers result (c3 lists.now space) }
    ensures order { IfOk result (λ order. IsOrder lists.now space order) }
{
    let mut orders = no_orders(alloc, lists.len())?;
    let mut pending = Vec::new(alloc);
    pending.push(space)?;
    let mut table = Table::new(alloc);
    while let Some(top) = pending.pop() {
        let bases = lists.bases(top);
        if let Some(base) = first_without(bases.as_slice(), &orders) {
            pending.push(top)?;
            pending.push(base)?;
        } else {
            let order = order_from(alloc, &mut table, top, bases, &orders)?;
            orders[top.0 as usize] = Some(order);
        }
    }
    let Some(order) = order_at(&orders, space) else {
        unreachable!()
    };
    Ok(order.copy()?)
}

fn no_orders(alloc: Global, count: usize) -> Result<Vec<Option<Order>>, AllocError>
    ensures { IfOk result (λ orders. orders.items ≡ replicate count None) }
{
    let mut orders = Vec::new(alloc);
    for _ in 0..count {
        orders.push(None)?;
    }
    Ok(orders)
}

fn order_at(orders: &[Option<Order>], space: SpaceId) -> Option<&Order>
    ensures { MatchOption result (known orders.now space ≡ None)
        (λ order. known orders.now space ≡ Some order.now) }
{
    match orders.get(space.0 as usize) {
        Some(Some(order)) => Some(order),
        _ => None,
    }
}

/// The first of the bases that has no order yet.
fn first_without(bases: &[SpaceId], orders: &[Option<Order>]) -> Option<SpaceId>
    ensures { result ≡ first_unknown orders.now bases.now }
{
    for base in bases {
        if order_at(orders, *base).is_none() {
            return Some(*base);
        }
    }
    None
}

/// The order of a space from those of its bases.
fn order_from(
    alloc: Global,
    table: &mut Table,
    space: SpaceId,
    bases: &Order,
    orders: &[Option<Order>],
) -> Result<Order, C3Refusal>
    requires { AllDistinct (orders_of orders.now bases.now ++ bases.now ∷ []) }
    ensures { Answers result
        (put space (merge (orders_of orders.now bases.now ++ bases.now ∷ []))) }
{
    let mut begun = Vec::new(alloc);
    begun.push(space)?;
    let lists = lists_of(alloc, bases, orders)?;
    merge_onto(alloc, table, begun, lists)
}

/// The orders of the bases, and the list of the bases.
fn lists_of<'a>(
    alloc: Global,
    bases: &'a Order,
    orders: &'a [Option<Order>],
) -> Result<Vec<Remaining<'a>>, AllocError>
    ensures { IfOk result
        (λ lists. lists.items ≡ orders_of orders.now bases.now ++ bases.now ∷ []) }
{
    let mut lists = Vec::with_capacity(alloc, bases.as_slice().len() + 1)?;
    for base in bases.as_slice() {
        if let Some(order) = order_at(orders, *base) {
            lists.push(Remaining::new(order.as_slice()))?;
        }
    }
    lists.push(Remaining::new(bases.as_slice()))?;
    Ok(lists)
}
