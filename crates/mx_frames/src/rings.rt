//! Rings of nodes in flight.
ghost use Rattle.std.specs.Prelude.{◌≡◌, IfOk};
ghost use Rattle.mx_runs.specs.Lists.{Has};
ghost use Rattle.mx_frames.specs.Flights.{frame_nodes};
ghost use Rattle.mx_frames.specs.Rings.{IsFrom};

use crate::runs::Frame;
use mx_list::items::Items;
use mx_value::node::Node;
use std::alloc::{AllocError, Global};

/// The nodes of these frames.
pub fn nodes_of(alloc: Global, frames: &[Frame]) -> Result<Items<Node>, AllocError>
    ensures { IfOk result (λ nodes. nodes ≡ frame_nodes frames.now) }
{
    let mut nodes = Items::new(alloc);
    for frame in frames {
        nodes.push(frame.current.node.get().copy(alloc)?)?;
    }
    Ok(nodes)
}

/// The frames from the one of this node on, where it has one.
pub fn frames_from<'f>(frames: &'f [Frame], node: &Node) -> &'f [Frame]
    ensures { Has (frame_nodes frames.now) node.now →
        IsFrom (frame_nodes frames.now) node.now (frame_nodes result.now) }
{
    for at in 0..frames.len() {
        if *frames[at].current.node.get() == *node {
            return &frames[at..];
        }
    }
    frames
}
