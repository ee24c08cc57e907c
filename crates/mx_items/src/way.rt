//! The way along an address.
ghost use Rattle.std.specs.Prelude.{◌≡◌, ◌++◌, Some, length, map, OnOk, IfOk, IfErr};
ghost use Rattle.mx_value.specs.declared.value.Segment.{out-Segment};
ghost use Rattle.mx_value.specs.declared.value.Segment.TheVariants.{Name};
ghost use Rattle.mx_value.specs.declared.node.Node.TheVariants.{Item};
ghost use Rattle.mx_items.specs.Way.{above_all, entered, space_at, DoesTell};
ghost use Rattle.mx_items.specs.Stretch.{here, below, DoesStop};

use crate::held::ItemNamespaces;
use crate::refusal::ItemsRefusal;
use mx_list::items::Items;
use mx_list::list::List;
use mx_value::copies::copy_items;
use mx_value::label::Label;
use mx_value::namespace::Namespace;
use mx_value::node::{Node, SharedNode};
use mx_value::value::{Addr, Segment, Value};
use std::alloc::{AllocError, Global};

/// How far the way has come: the space of the last item, where there was one, and the names behind it.
#[derive(Drop)]
pub struct Stretch {
    space: Option<Namespace>,
    names: Vec<Label>,
}

/// The node of an item, by the address of the space that it is an item of.
fn item_node(
    alloc: Global,
    before: &[Segment],
    arguments: &Items<Value>,
) -> Result<SharedNode, AllocError>
    ensures { IfOk result (λ n. n ≡ Item before.now arguments.now) }
{
    let mut at = Vec::with_capacity(alloc, before.len())?;
    put_segments(alloc, &mut at, before)?;
    let node = Node::Item(List::from_vec(alloc, at)?, copy_items(alloc, arguments)?);
    SharedNode::new(alloc, node)
}

impl Stretch {
    /// The way before its first segment.
    fn new(alloc: Global) -> Stretch
        ensures { here result ≡ above_all }
    {
        Stretch {
            space: None,
            names: Vec::new(alloc),
        }
    }

    /// Goes one segment further, behind these.
    fn enter<S: ItemNamespaces>(
        &mut self,
        alloc: Global,
        items: &S,
        before: &[Segment],
        segment: &Segment,
    ) -> Result<(), ItemsRefusal>
        ensures ok { OnOk result
            (entered (S.held items.now) before.now (here self.old) (out-Segment segment.now)
            ≡ Some (here self.new)) }
        ensures err { IfErr result
            (DoesStop
            (entered (S.held items.now) before.now (here self.old) (out-Segment segment.now))
            (length before.now)) }
    {
        match segment {
            Segment::Name(name) => {
                self.names.push(name.copy()?)?;
                Ok(())
            }
            Segment::Item(arguments) => {
                let node = item_node(alloc, before, arguments)?;
                let Some(found) = items.namespace_of(&node) else {
                    return Err(ItemsRefusal::NotHeld(before.len()));
                };
                self.space = Some(found.copy()?);
                self.names.clear();
                Ok(())
            }
        }
    }
    /// The namespace that the way has come to.
    fn end(self, alloc: Global) -> Result<Namespace, AllocError>
        ensures { IfOk result (λ n. n ≡ here self) }
    {
        let Stretch { space, names } = self;
        match space {
            None => at_names(alloc, names),
            Some(space) => below_space(alloc, space, names),
        }
    }
}

/// Puts names as segments behind others.
fn put_names(at: &mut Vec<Segment>, names: &[Label]) -> Result<(), AllocError>
    ensures { OnOk result (at.new.items ≡ at.old.items ++ map Name names.now) }
{
    for name in names {
        at.push(Segment::Name(name.copy()?))?;
    }
    Ok(())
}

/// Puts copies of segments behind others.
fn put_segments(alloc: Global, at: &mut Vec<Segment>, more: &[Segment]) -> Result<(), AllocError>
    ensures { OnOk result (at.new.items ≡ at.old.items ++ more.now) }
{
    for segment in more {
        at.push(segment.copy(alloc)?)?;
    }
    Ok(())
}

/// Puts copies of names behind others.
fn put_labels(path: &mut Vec<Label>, more: &[Label]) -> Result<(), AllocError>
    ensures { OnOk result (path.new.items ≡ path.old.items ++ more.now) }
{
    for name in more {
        path.push(name.copy()?)?;
    }
    Ok(())
}

/// The namespace at an address of names alone.
fn at_names(alloc: Global, names: Vec<Label>) -> Result<Namespace, AllocError>
    ensures { IfOk result (λ n. n ≡ below above_all names.items) }
{
    let mut at = Vec::with_capacity(alloc, names.len())?;
    put_names(&mut at, &names)?;
    Ok(Namespace {
        at: List::from_vec(alloc, at)?,
        source: List::from_vec(alloc, names)?,
        overlay: List::empty(alloc)?,
    })
}

/// The namespace that names lead to from another.
fn below_space(alloc: Global, space: Namespace, names: Vec<Label>) -> Result<Namespace, AllocError>
    ensures { IfOk result (λ n. n ≡ below space names.items) }
{
    if names.is_empty() {
        return Ok(space);
    }
    let mut at = Vec::with_capacity(alloc, space.at.len())?;
    put_segments(alloc, &mut at, space.at.as_slice())?;
    put_names(&mut at, &names)?;
    let mut source = Vec::with_capacity(alloc, space.source.len())?;
    put_labels(&mut source, space.source.as_slice())?;
    put_labels(&mut source, &names)?;
    Ok(Namespace {
        at: List::from_vec(alloc, at)?,
        source: List::from_vec(alloc, source)?,
        overlay: space.overlay,
    })
}

/// The namespace that an address leads to. A name leads to the child of that name, whether or not the model has it, and an
/// item to the namespace that is held for its node. Memory is taken for the item nodes that are sought, and for a namespace
/// that is not held itself.
pub fn space_of<S: ItemNamespaces>(
    alloc: Global,
    items: &S,
    addr: &Addr,
) -> Result<Namespace, ItemsRefusal>
    ensures { DoesTell result (space_at (S.held items.now) addr.now) }
{
    let segments = addr.as_slice();
    let mut way = Stretch::new(alloc);
    for (place, segment) in segments.iter().enumerate() {
        way.enter(alloc, items, &segments[..place], segment)?;
    }
    Ok(way.end(alloc)?)
}
