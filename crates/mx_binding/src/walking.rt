//! The walk of an address past the items that are held.
ghost use Rattle.std.specs.Prelude.{◌≡◌, [], IfOk};
ghost use Rattle.mx_state.specs.Model.{model_of};
ghost use Rattle.mx_read_set.specs.Seen.{nothing_seen};
ghost use Rattle.mx_answers.specs.Records.{IsRightMemo};
ghost use Rattle.mx_memo_laws.specs.Entries.{IsOrdered, entries_of};
ghost use Rattle.mx_walks.specs.Ways.{AsksAt, told};
ghost use Rattle.mx_binding.specs.Walking.{IsLed, LeadsFurther, LeadsOn, PassesOn};

use crate::records::Records;
use mx_memo::Memo;
use mx_stack::rest::Onward;
use mx_value::namespace::Namespace;
use mx_value::node::SharedNode;
use mx_value::value::Addr;
use mx_walks::walks::{Walked, walk_from_top, walk_on};
use mx_world::world::World;
use std::alloc::{AllocError, Global};

/// What the walk of an address leads to past the items that are held.
#[derive(Drop)]
pub enum Led {
    /// The namespace of the address.
    Came(Namespace),
    /// The first item that is not held, with the segments behind it.
    Waits(SharedNode, Onward),
    /// There is no such space.
    NoSuch,
    /// The arguments of an item do not bind.
    WrongCount,
}

/// Where a walk is past one held item.
#[derive(Drop)]
enum Passed {
    On(Walked),
    Stops(Led),
}

/// The walk of an address from the top. Nothing is recorded of it before.
pub fn walk_held(
    alloc: Global,
    world: &World,
    memo: &Memo,
    at: &Addr,
    records: &mut Records,
) -> Result<Led, AllocError>
    requires memo { IsRightMemo (model_of world.now) (entries_of memo.now.held) }
    requires ordered { IsOrdered memo.now }
    requires seen { records.old.seen ≡ nothing_seen }
    requires asks { records.old.asks ≡ [] }
    ensures { IfOk result (λ led. IsLed (model_of world.now) memo.now.held at.now led records.new) }
{
    let walked = walk_from_top(alloc, world, at)?;
    return pass_held(alloc, world, memo, walked, records);
}

/// On behind an item that the walk waited for, with the namespace that the item gave. More may be held
/// than as the walk came to wait.
pub fn walk_further(
    alloc: Global,
    world: &World,
    memo: &Memo,
    rest: Onward,
    came: Option<Namespace>,
    records: &mut Records,
) -> Result<Led, AllocError>
    requires memo { IsRightMemo (model_of world.now) (entries_of memo.now.held) }
    requires ordered { IsOrdered memo.now }
    ensures { IfOk result
        (λ led.
        LeadsFurther (model_of world.now) memo.now.held rest came records.old led records.new) }
{
    let walked = walk_on(alloc, world, rest, came)?;
    return pass_held(alloc, world, memo, walked, records);
}

/// On from where a walk stands, past each item that is held.
fn pass_held(
    alloc: Global,
    world: &World,
    memo: &Memo,
    from: Walked,
    records: &mut Records,
) -> Result<Led, AllocError>
    requires memo { IsRightMemo (model_of world.now) (entries_of memo.now.held) }
    requires ordered { IsOrdered memo.now }
    ensures { IfOk result
        (λ led.
        LeadsOn (model_of world.now) memo.now.held (told from) records.old led records.new) }
{
    let mut walked = from;
    for _ in 0..u64::MAX {
        match pass_item(alloc, world, memo, walked, records)? {
            Passed::On(next) => walked = next,
            Passed::Stops(led) => return Ok(led),
        }
    }
    Err(AllocError)
}

/// On past one item, where the walk stands at one that is held.
fn pass_item(
    alloc: Global,
    world: &World,
    memo: &Memo,
    walked: Walked,
    records: &mut Records,
) -> Result<Passed, AllocError>
    requires memo { IsRightMemo (model_of world.now) (entries_of memo.now.held) }
    requires ordered { IsOrdered memo.now }
    ensures { IfOk result
        (λ past.
        PassesOn (model_of world.now) memo.now.held (told walked) records.old past records.new) }
{
    match walked {
        Walked::Came(space) => return Ok(Passed::Stops(Led::Came(space))),
        Walked::Asks(item, rest) => return ask_item(alloc, world, memo, item, rest, records),
        Walked::NoSuch => return Ok(Passed::Stops(Led::NoSuch)),
        Walked::WrongCount => return Ok(Passed::Stops(Led::WrongCount)),
    }
}

/// An item is asked: where it is held, the walk goes on in its namespace.
fn ask_item(
    alloc: Global,
    world: &World,
    memo: &Memo,
    item: SharedNode,
    rest: Onward,
    records: &mut Records,
) -> Result<Passed, AllocError>
    requires memo { IsRightMemo (model_of world.now) (entries_of memo.now.held) }
    requires ordered { IsOrdered memo.now }
    ensures { IfOk result
        (λ past.
        PassesOn (model_of world.now) memo.now.held
        (AsksAt item rest) records.old past records.new) }
{
    let Some(id) = memo.find(&item) else {
        return Ok(Passed::Stops(Led::Waits(item, rest)));
    };
    let Some(body) = memo.body(id) else {
        unreachable!()
    };
    records.ask(&item, id)?;
    let came = copy_namespace(&body.reply.get().namespace)?;
    let walked = walk_on(alloc, world, rest, came)?;
    Ok(Passed::On(walked))
}

/// The namespace of an item's reply, shared.
pub fn copy_namespace(space: &Option<Namespace>) -> Result<Option<Namespace>, AllocError>
    ensures { IfOk result (λ copy. copy ≡ space.now) }
{
    match space {
        Some(space) => return Ok(Some(space.copy()?)),
        None => return Ok(None),
    }
}
