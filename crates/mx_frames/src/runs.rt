//! The runs in flight.
ghost use Rattle.std.specs.Prelude.{◌≡◌, []};
ghost use Rattle.mx_stack.specs.Flight.{no_run};

use crate::current::Current;
use mx_node_runs::halt::Waiting;
use mx_stack::stack::Stack;
use std::alloc::Global;

/// A run that waits for the answer of a node that it asked, and how it goes on with that. It stands on the stack below those
/// that began after it.
#[derive(Drop)]
pub struct Frame {
    pub current: Current,
    pub waiting: Waiting,
}

/// The runs that wait, the longest first, and the values and locals of all.
#[derive(Drop)]
pub struct Runs {
    pub alloc: Global,
    pub stack: Stack,
    pub frames: Vec<Frame>,
}

impl Runs {
    /// No run is in flight.
    pub fn new(alloc: Global) -> Runs
        ensures stack { result.stack ≡ no_run }
        ensures frames { result.frames.items ≡ [] }
    {
        Runs {
            alloc,
            stack: Stack::new(alloc),
            frames: Vec::new(alloc),
        }
    }
}
