//! Walks through names, up to the next item.
ghost use Rattle.std.specs.Prelude.{◌≡◌, IfOk, OnOk, length};
ghost use Rattle.mx_model.specs.Keys.{key_result};
ghost use Rattle.mx_meaning.specs.Namespaces.{child, root};
ghost use Rattle.mx_walks.specs.Ways.{stopped_way, way_of};

use crate::copies::{copy_names, copy_segments};
use crate::items::{Stop, find_item};
use mx_list::list::List;
use mx_value::label::Label;
use mx_value::namespace::{Namespace, Overlay};
use mx_value::value::Segment;
use mx_world::world::World;
use std::alloc::{AllocError, Global};
use std::marker::Model;

/// The greatest number of segments.
pub const SEGMENTS: usize = 64;

/// A namespace whose address and source grow.
#[derive(Drop)]
pub struct Going {
    at: Vec<Segment>,
    source: Vec<Label>,
    overlay: Overlay,
}

impl Model for Going {
    ghost use Rattle.std.specs.Coded.{codes};
    ghost use Rattle.mx_value.specs.contracts.value.Value as value;
    ghost use Rattle.mx_value.specs.contracts.value.Segment as segment;
    ghost use Rattle.mx_value.specs.declared.namespace.Namespace.{Namespace};

    ghost Value = { Namespace };

    ghost coded = { Prim.hlevel (codes, value.the_row.coded, segment.the_row.coded) };

    ghost view = { λ g. record { at = g.at.items; source = g.source.items; overlay = g.overlay } };
}

impl Going {
    /// From above the spaces at the top.
    pub fn from_top(alloc: Global) -> Result<Going, AllocError>
        ensures { IfOk result (λ going. going ≡ root) }
    {
        Ok(Going {
            at: Vec::new(alloc),
            source: Vec::new(alloc),
            overlay: List::empty(alloc)?,
        })
    }

    /// From a namespace.
    pub fn from_namespace(alloc: Global, namespace: &Namespace) -> Result<Going, AllocError>
        ensures { IfOk result (λ going. going ≡ namespace.now) }
    {
        Ok(Going {
            at: copy_segments(alloc, namespace.at.as_slice())?,
            source: copy_names(alloc, namespace.source.as_slice())?,
            overlay: namespace.overlay.copy()?,
        })
    }

    /// To a child.
    fn enter(&mut self, name: &Label) -> Result<(), AllocError>
        ensures { OnOk result (self.new ≡ child name.now self.old) }
    {
        let segment = Segment::Name(name.copy()?);
        self.at.push(segment)?;
        self.source.push(name.copy()?)?;
        Ok(())
    }

    /// How many segments the address has.
    fn len(&self) -> usize
        ensures { result ≡ length self.now.at }
    {
        self.at.len()
    }

    /// The namespace.
    fn into_namespace(self, alloc: Global) -> Result<Namespace, AllocError>
        ensures { IfOk result (λ namespace. namespace ≡ self) }
    {
        let Going {
            at,
            source,
            overlay,
        } = self;
        Ok(Namespace {
            at: List::from_vec(alloc, at)?,
            source: List::from_vec(alloc, source)?,
            overlay,
        })
    }
}

/// On through these segments, up to the first item.
pub fn go_on(
    alloc: Global,
    world: &World,
    from: Going,
    segments: &[Segment],
) -> Result<Stop, AllocError>
    ensures { IfOk result (λ stop.
        stopped_way segments.now stop ≡ way_of (key_result world.now) segments.now from) }
{
    let mut going = from;
    for (place, segment) in segments.iter().enumerate() {
        if SEGMENTS <= going.len() {
            return Ok(Stop::NoSuch);
        }
        match segment {
            Segment::Name(name) => going.enter(name)?,
            Segment::Item(arguments) => {
                let namespace = going.into_namespace(alloc)?;
                return find_item(alloc, world, &namespace, arguments, place + 1);
            }
        }
    }
    let namespace = going.into_namespace(alloc)?;
    Ok(Stop::Came(namespace))
}
