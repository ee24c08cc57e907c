//! Namespaces: where names are looked up.
ghost use Rattle.std.specs.Prelude.{◌≡◌, IfOk};

use crate::label::Label;
use crate::node::Path;
use crate::value::{Addr, Value};
use mx_list::list::List;
use std::alloc::AllocError;

/// Names with their values, each name once.
pub type Overlay = List<(Label, Value)>;

/// Where a formula's names are looked up: first in the overlay, then among the bindings of the
/// source. A static path has its own names as address and as source, and an empty overlay.
#[derive(PartialEq, Eq, Drop)]
pub struct Namespace {
    /// The address of the space that the formula runs in.
    pub at: Addr,
    /// The path whose bindings hold there.
    pub source: Path,
    /// The parameters and references that item spaces added.
    pub overlay: Overlay,
}

impl Namespace {
    /// An equal namespace, sharing all that it holds.
    pub fn copy(&self) -> Result<Namespace, AllocError>
        ensures { IfOk result (λ c. c ≡ self.now) }
    {
        Ok(Namespace {
            at: self.at.copy()?,
            source: self.source.copy()?,
            overlay: self.overlay.copy()?,
        })
    }
}
