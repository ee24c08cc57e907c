//! The run of a node, from its beginning or from an answer up to where it halts.
ghost use Rattle.std.specs.Prelude.{◌≡◌, IfOk};
ghost use Rattle.mx_edit.specs.declared.reply.Reply.{Reply as Replies};
ghost use Rattle.mx_meaning.specs.Nodes.{body};
ghost use Rattle.mx_runs.specs.Runs.{Run};
ghost use Rattle.mx_state.specs.Model.{model_of};
ghost use Rattle.mx_walks.specs.Ways.{leading_run, told};
ghost use Rattle.mx_node_runs.specs.Behind as behind;
ghost use Rattle.mx_node_runs.specs.Halts.{HaltsAt, HaltsFrom, Resumes};

use crate::arrived::Arrived;
use crate::cells::enter_cells;
use crate::code::proceed;
use crate::halt::{Halt, Waiting};
use crate::input::find_input;
use crate::items::enter_item;
use mx_edit::reply::Reply;
use mx_interpreter::run;
use mx_list::shared::Shared;
use mx_lookup::ending::Ending;
use mx_read_set::seen::Seen;
use mx_stack::stack::Stack;
use mx_value::namespace::Namespace;
use mx_value::node::{Node, SharedNode};
use mx_value::value::Addr;
use mx_walks::near::walk_from;
use mx_walks::walks::{Walked, walk_on};
use mx_world::world::World;
use std::alloc::{AllocError, Global};

/// Begins the run of a node, above all that waits on the stack. Near may be any namespace: mostly a node is asked in the
/// space of its own.
pub fn start(
    alloc: Global,
    world: &World,
    node: &SharedNode,
    near: Option<&Namespace>,
    seen: &mut Seen,
    stack: &mut Stack,
) -> Result<Halt, AllocError>
    ensures { IfOk result (λ halt.
        HaltsFrom (model_of world.now) node.now (body node.now) seen.old seen.new halt
        stack.old stack.new) }
{
    if let Some(value) = find_input(alloc, world, node, seen)? {
        let reply = Reply {
            value,
            namespace: None,
        };
        return Ok(Halt::Ends(Ending::Gives(Shared::new(alloc, reply)?)));
    }
    let walked = walk_from(alloc, world, near, address_of(node.get()))?;
    arrive(alloc, world, node, walked, seen, stack)
}

/// The address of a node's space.
fn address_of(node: &Node) -> &Addr
    ensures { result.now ≡ behind.address_of node.now }
{
    match node {
        Node::Cell(at, _, _) => at,
        Node::Item(at, _) => at,
    }
}

/// A reply to a node, whose run waits for it.
#[derive(Drop)]
pub struct Answered<'a> {
    pub node: &'a SharedNode,
    pub waiting: Waiting,
    pub reply: &'a Reply,
}

/// Goes on with the run of a node, whose part of the stack is on top.
pub fn answer(
    alloc: Global,
    world: &World,
    answered: Answered<'_>,
    seen: &mut Seen,
    stack: &mut Stack,
) -> Result<Halt, AllocError>
    ensures { IfOk result (λ halt. (go : Replies → Run)
        → Resumes answered.entry.node.now answered.entry.waiting stack.old.top go
        → HaltsAt (model_of world.now) answered.entry.node.now (go answered.entry.reply.now)
        seen.old seen.new halt stack.new.top × (stack.new.below ≡ stack.old.below)) }
{
    let Answered {
        node,
        waiting,
        reply,
    } = answered;
    match waiting {
        Waiting::OnWay(onward) => {
            let walked = walk_on(alloc, world, onward, copy_namespace(reply)?)?;
            return arrive(alloc, world, node, walked, seen, stack);
        }
        Waiting::InCode(place) => {
            run::resume(alloc, stack, place.resume, reply)?;
            return proceed(alloc, world, place.home, place.code, seen, stack);
        }
    }
}

/// The namespace of a reply.
fn copy_namespace(reply: &Reply) -> Result<Option<Namespace>, AllocError>
    ensures { IfOk result (λ namespace. namespace ≡ reply.now.namespace) }
{
    match &reply.namespace {
        Some(namespace) => return Ok(Some(namespace.copy()?)),
        None => return Ok(None),
    }
}

/// Goes on where the walk of a node led to: behind the walk nothing of its code has begun.
pub fn arrive(
    alloc: Global,
    world: &World,
    node: &SharedNode,
    walked: Walked,
    seen: &mut Seen,
    stack: &mut Stack,
) -> Result<Halt, AllocError>
    ensures { IfOk result (λ halt.
        HaltsFrom (model_of world.now) node.now (leading_run (told walked) (behind.behind node.now))
        seen.old seen.new halt stack.old stack.new) }
{
    match walked {
        Walked::Came(space) => return enter(alloc, world, node, space, seen, stack),
        Walked::Asks(asked, onward) => return Ok(Halt::Asks(asked, Waiting::OnWay(onward))),
        Walked::NoSuch => return Ok(Halt::Ends(Ending::NoSuch)),
        Walked::WrongCount => return Ok(Halt::Ends(Ending::WrongCount)),
    }
}

/// Goes on in the namespace that the walk of a node came to.
fn enter(
    alloc: Global,
    world: &World,
    node: &SharedNode,
    space: Namespace,
    seen: &mut Seen,
    stack: &mut Stack,
) -> Result<Halt, AllocError>
    ensures { IfOk result (λ halt.
        HaltsFrom (model_of world.now) node.now (behind.behind node.now space)
        seen.old seen.new halt stack.old stack.new) }
{
    match node.get() {
        Node::Cell(_, name, arguments) => {
            let arrived = Arrived {
                node,
                arguments,
                space,
            };
            return enter_cells(alloc, world, arrived, name, seen, stack);
        }
        Node::Item(_, arguments) => {
            let arrived = Arrived {
                node,
                arguments,
                space,
            };
            return enter_item(alloc, world, arrived, seen, stack);
        }
    }
}
