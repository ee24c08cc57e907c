//! The inputs that differ between two worlds.
ghost use Rattle.std.specs.Prelude.{◌≡◌, ◌++◌, false, Ok, IfOk, ◌↔◌, IsTrue, OnOk};
ghost use Rattle.mx_value.specs.declared.node.Node.TheVariants as node;
ghost use Rattle.mx_edit.specs.declared.key.Key.TheVariants.{Input};
ghost use Rattle.mx_vertices.specs.Inputs.{AreChanged};
ghost use Rattle.mx_model.specs.Apply.{Apply};
ghost use Rattle.mx_model.specs.Change.{bound_at};
ghost use Rattle.mx_model.specs.Inputs.{cells_params, path_of};
ghost use Rattle.mx_model.specs.Keys.{is_changed, key_result};
ghost use Rattle.mx_model.specs.Refused.{do_not_bind};
ghost use Rattle.mx_retain.specs.Changed.{changed_in, one_changed};

use mx_apply::bound::bound_args;
use mx_changes::inputs::node_of;
use mx_edit::edit::Edit;
use mx_list::items::Items;
use mx_list::shared::Shared;
use mx_members::members::Members;
use mx_model::laws::key_laws;
use mx_value::label::Label;
use mx_value::node::{Node, SharedNode};
use mx_value::value::{Addr, Value};
use mx_world::world::World;
use std::alloc::{AllocError, Global};

/// The nodes whose inputs an edit changes. An edit of an input changes no other; after any other edit, it looks at all inputs of
/// both worlds, since those that fit no cells any more are dropped.
pub fn changed_by(
    alloc: Global,
    before: &World,
    after: &World,
    edit: &Edit,
) -> Result<Vec<SharedNode>, AllocError>
    requires { Apply before.now edit.now (Ok after.now) }
    ensures { IfOk result (λ nodes. AreChanged (is_changed before.now after.now) nodes.items) }
{
    key_laws();
    let _ = before.text();
    match edit {
        Edit::SetInput {
            space,
            name,
            args,
            value: _,
        } => {
            let node = input_node(alloc, before, space, name, args)?;
            return changed_input(alloc, before, after, &node);
        }
        Edit::DelInput { space, name, args } => {
            let node = input_node(alloc, before, space, name, args)?;
            return changed_input(alloc, before, after, &node);
        }
        _ => return changed_inputs(alloc, before, after),
    }
}

/// The node of an input, whose arguments are bound first.
fn input_node(
    alloc: Global,
    world: &World,
    at: &Addr,
    name: &Label,
    args: &Items<Value>,
) -> Result<Node, AllocError>
    requires { let params = cells_params world.now (path_of at.now) name.now in
        do_not_bind params args.now ≡ false }
    ensures { let full = bound_at world.now at.now name.now args.now in
        IfOk result (λ n. n ≡ node.Cell at.now name.now full) }
{
    let full = bound_args(alloc, world.text(), at, name, args)?;
    node_of(at, name, full)
}

/// A node, where its input differs.
fn changed_input(
    alloc: Global,
    before: &World,
    after: &World,
    node: &Node,
) -> Result<Vec<SharedNode>, AllocError>
    ensures { IfOk result (λ nodes. nodes.items ≡ one_changed before.now after.now node.now) }
{
    let mut nodes = Vec::new(alloc);
    add_one(alloc, before, after, node, &mut nodes)?;
    return Ok(nodes);
}

/// The nodes whose inputs differ between two worlds. It looks at each input of both, and takes memory for those that differ.
fn changed_inputs(
    alloc: Global,
    before: &World,
    after: &World,
) -> Result<Vec<SharedNode>, AllocError>
    ensures { IfOk result (λ nodes. AreChanged (is_changed before.now after.now) nodes.items) }
{
    key_laws();
    let mut nodes = Vec::new(alloc);
    add_changed(alloc, before, after, before.text().inputs(), &mut nodes)?;
    add_changed(alloc, before, after, after.text().inputs(), &mut nodes)?;
    return Ok(nodes);
}

/// Adds the nodes of these inputs that differ.
fn add_changed(
    alloc: Global,
    before: &World,
    after: &World,
    inputs: &Members<Node, Shared<Value>>,
    nodes: &mut Vec<SharedNode>,
) -> Result<(), AllocError>
    ensures { OnOk result
        (nodes.new.items ≡ nodes.old.items ++ changed_in before.now after.now inputs.now) }
{
    for place in 0..inputs.count() {
        let Some((node, _)) = inputs.at(place) else {
            unreachable!()
        };
        add_one(alloc, before, after, node, nodes)?;
    }
    return Ok(());
}

/// Adds a node, where its input differs.
fn add_one(
    alloc: Global,
    before: &World,
    after: &World,
    node: &Node,
    nodes: &mut Vec<SharedNode>,
) -> Result<(), AllocError>
    ensures { OnOk result
        (nodes.new.items ≡ nodes.old.items ++ one_changed before.now after.now node.now) }
{
    key_laws();
    if is_same(before, after, node) {
        return Ok(());
    }
    nodes.push(SharedNode::new(alloc, node.copy(alloc)?)?)?;
    return Ok(());
}

/// Whether the input of a node is the same in two worlds.
fn is_same(before: &World, after: &World, node: &Node) -> bool
    ensures { IsTrue result ↔
        (key_result before.now (Input node.now) ≡ key_result after.now (Input node.now)) }
{
    match (before.input(node), after.input(node)) {
        (Some(one), Some(other)) => return one == other,
        (None, None) => return true,
        _ => return false,
    }
}
