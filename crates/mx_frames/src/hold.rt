//! How the node of a run that has given its reply is held.
ghost use Rattle.std.specs.Prelude.{◌≡◌, ◌++◌, IfOk, IfErr};
ghost use Rattle.mx_memo_laws.specs.Entries.{own_keys};
ghost use Rattle.mx_binding.specs.Records.{HasOwnKey};
ghost use Rattle.mx_frames.specs.Giving.{IsHeldLast, IsHeldThen, IsReadyToHold};

use crate::current::Current;
use crate::progress::Given;
use mx_binding::records::Records;
use mx_edit::key::Key;
use mx_edit::reply::Reply;
use mx_list::list::List;
use mx_list::shared::Shared;
use mx_memo::{Body, HoldRefusal, Memo};
use mx_read_set::distinct::Distinct;
use mx_value::node::{Node, SharedNode};
use mx_value::read::Read;
use mx_vertices::inputs::is_static;
use std::alloc::{AllocError, Global};

/// The node of a run that has ended is held with its reply and with what is recorded of the run.
pub fn hold(
    alloc: Global,
    current: Current,
    reply: Shared<Reply>,
    memo: &mut Memo,
) -> Result<Given, HoldRefusal>
    requires ready { IsReadyToHold memo.old current }
    ensures held { IfOk result (IsHeldLast memo.old memo.new current reply) }
    ensures lost { IfErr result (IsHeldThen memo.old memo.new) }
{
    let Current { node, records } = current;
    let Records { seen, asks } = records;
    let (keys, reads) = seen.into_parts();
    let Ok(body) = body_of(alloc, &node, reply, reads) else {
        return Err(HoldRefusal::NoMemory);
    };
    let Ok(reply) = body.reply.copy() else {
        return Err(HoldRefusal::NoMemory);
    };
    let others = other_keys(node.get(), keys.as_slice());
    match memo.hold(body, others, asks.as_slice()) {
        Ok(id) => {
            memo.in_order();
            Ok(Given { id, node, reply })
        }
        Err(HoldRefusal::Full) => Err(HoldRefusal::Full),
        Err(HoldRefusal::NoMemory) => Err(HoldRefusal::NoMemory),
    }
}

/// What is held of a node: its reply, and what its run read.
fn body_of(
    alloc: Global,
    node: &SharedNode,
    reply: Shared<Reply>,
    reads: Distinct<Read>,
) -> Result<Body, AllocError>
    ensures { IfOk result (λ b. (b.node ≡ node.now) × (b.reply ≡ reply) × (b.reads ≡ reads)) }
{
    Ok(Body {
        node: node.copy()?,
        reply,
        reads: List::from_vec(alloc, reads.into_vec()?)?,
    })
}

/// The keys of a run but for that of its node's own input, which is the first where the node has one.
fn other_keys<'k>(node: &Node, keys: &'k [Key]) -> &'k [Key]
    ensures { HasOwnKey node.now keys.now → keys.now ≡ own_keys node.now ++ result.now }
{
    let Some((_own, others)) = keys.split_first() else {
        return keys;
    };
    if is_static(node) { others } else { keys }
}
