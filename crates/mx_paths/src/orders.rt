//! The orders of the defined spaces, and the layers that their children's paths take from them.
ghost use Rattle.std.specs.Prelude.{◌≡◌, ◌<◌, ◌++◌, ◌∷◌, [], length, slice_get, ◌↔◌, IsTrue, Some, None, IfOk, MatchOption};
ghost use Rattle.mx_c3.specs.InOrder.{AllBelow};
ghost use Rattle.mx_c3.specs.Lists.{AllDistinct};
ghost use Rattle.mx_c3.specs.Known.{known};
ghost use Rattle.mx_c3.specs.Merge.{merge, put_all};
ghost use Rattle.mx_c3.specs.Linearisation.{c3};
ghost use Rattle.mx_model.specs.Layers.{base_lists, of_children};
ghost use Rattle.mx_model.specs.Sound.{IsSound, AreSpaces};
ghost use Rattle.mx_paths.specs.Orders.{AreOrders, told, all_known, layered_by};

use mx_c3::linearise::linearise;
use mx_c3::lists::Order;
use mx_c3::merge::merge_onto;
use mx_c3::refusal::C3Refusal;
use mx_c3::remaining::Remaining;
use mx_c3::space::SpaceId;
use mx_c3::table::Table;
use mx_model::text::ModelText;
use std::alloc::{AllocError, Global};

/// The order of each defined space, by its place. None for one that has no order.
pub fn orders_of(alloc: Global, text: &ModelText) -> Result<Vec<Option<Order>>, AllocError>
    requires { IsSound text.now }
    ensures { IfOk result (λ v. AreOrders (base_lists text.now) v.items (length text.now.spaces)) }
{
    let mut orders = Vec::with_capacity(alloc, text.space_count() as usize)?;
    let mut table = Table::new(alloc);
    for place in 0..text.space_count() {
        let order = order_of(alloc, &mut table, text, &orders, SpaceId(place))?;
        orders.push(order)?;
    }
    Ok(orders)
}

/// The order of a space, from those of its bases where these stand before it.
fn order_of(
    alloc: Global,
    table: &mut Table,
    text: &ModelText,
    orders: &[Option<Order>],
    space: SpaceId,
) -> Result<Option<Order>, AllocError>
    requires sound { IsSound text.now }
    requires space { space.0 < length text.now.spaces }
    requires known { AreOrders (base_lists text.now) orders.now space.0 }
    ensures { IfOk result (λ order. order ≡ told (c3 (base_lists text.now) space)) }
{
    let bases = text.bases_of(space).as_slice();
    if !are_before(bases, space) {
        return linearised(alloc, text, space);
    }
    let Some(known) = all_known(alloc, orders, bases)? else {
        return Ok(None);
    };
    let mut begun = Vec::with_capacity(alloc, bases.len() + 1)?;
    begun.push(space)?;
    return merged(alloc, table, begun, known, bases);
}

fn are_before(bases: &[SpaceId], space: SpaceId) -> bool
    ensures { IsTrue result ↔ AllBelow space.0 bases.now }
{
    for base in bases {
        if base.0 >= space.0 {
            return false;
        }
    }
    true
}

/// The order of a space from the bases of all.
fn linearised(alloc: Global, text: &ModelText, space: SpaceId) -> Result<Option<Order>, AllocError>
    requires sound { IsSound text.now }
    requires space { space.0 < length text.now.spaces }
    ensures { IfOk result (λ order. order ≡ told (c3 (base_lists text.now) space)) }
{
    match linearise(alloc, text.base_lists(), space) {
        Ok(order) => return Ok(Some(order)),
        Err(C3Refusal::NoOrder(_)) => return Ok(None),
        Err(C3Refusal::NoMemory) => return Err(AllocError),
    }
}

/// The orders of these spaces, where each has one, with room for one list more.
fn all_known<'a>(
    alloc: Global,
    orders: &'a [Option<Order>],
    spaces: &[SpaceId],
) -> Result<Option<Vec<Remaining<'a>>>, AllocError>
    ensures { let all = all_known orders.now spaces.now in
        IfOk result (λ found. MatchOption found (all ≡ None) (λ v. all ≡ Some v.items)) }
{
    let mut known = Vec::with_capacity(alloc, spaces.len() + 1)?;
    for space in spaces {
        match known_at(orders, *space) {
            Some(order) => known.push(Remaining::new(order.as_slice()))?,
            None => return Ok(None),
        }
    }
    return Ok(Some(known));
}

/// The merge of these orders and of the list of their spaces, behind an order that has begun. None where no head can be taken.
fn merged<'a>(
    alloc: Global,
    table: &mut Table,
    begun: Vec<SpaceId>,
    orders: Vec<Remaining<'a>>,
    spaces: &'a [SpaceId],
) -> Result<Option<Order>, AllocError>
    requires { AllDistinct (orders.items ++ spaces.now ∷ []) }
    ensures { let all = put_all begun.items (merge (orders.entry.items ++ spaces.now ∷ [])) in
        IfOk result (λ order. order ≡ told all) }
{
    let mut lists = orders;
    lists.push(Remaining::new(spaces))?;
    match merge_onto(alloc, table, begun, lists) {
        Ok(order) => return Ok(Some(order)),
        Err(C3Refusal::NoOrder(_)) => return Ok(None),
        Err(C3Refusal::NoMemory) => return Err(AllocError),
    }
}

/// The layers of a path with these defined children, one at least. None where they have no order.
pub fn layers_of(
    alloc: Global,
    text: &ModelText,
    orders: &[Option<Order>],
    spaces: &[SpaceId],
) -> Result<Option<Order>, AllocError>
    requires sound { IsSound text.now }
    requires known { AreOrders (base_lists text.now) orders.now (length text.now.spaces) }
    requires spaces { AreSpaces text.now spaces.now }
    requires some { spaces.now ≡ [] → ⊥ }
    ensures { IfOk result (λ order. layered_by order ≡ of_children text.now spaces.now) }
{
    if let [space] = spaces {
        return order_at(orders, *space);
    }
    let Some(known) = all_known(alloc, orders, spaces)? else {
        return Ok(None);
    };
    let mut table = Table::new(alloc);
    return merged(alloc, &mut table, Vec::new(alloc), known, spaces);
}

/// The order of a space, shared.
fn order_at(orders: &[Option<Order>], space: SpaceId) -> Result<Option<Order>, AllocError>
    ensures { IfOk result (λ order. order ≡ known orders.now space) }
{
    match known_at(orders, space) {
        Some(order) => return Ok(Some(order.copy()?)),
        None => return Ok(None),
    }
}

/// The order of a space.
fn known_at(orders: &[Option<Order>], space: SpaceId) -> Option<&Order>
    ensures { let found = known orders.now space in
        MatchOption result (found ≡ None) (λ order. found ≡ Some order.now) }
{
    match orders.get(space.0 as usize) {
        Some(Some(order)) => Some(order),
        _ => None,
    }
}
