//! What a run has read so far.
ghost use Rattle.std.specs.Prelude.{◌≡◌, OnOk};
ghost use Rattle.mx_read_set.specs.Seen.{nothing_seen, with_key, with_read};

use crate::distinct::Distinct;
use mx_edit::key::Key;
use mx_value::read::Read;
use std::alloc::{AllocError, Global};
use std::marker::Model;

/// The keys that a run looked up and what it noted as read, each once and in order of first occurrence.
#[derive(Drop)]
pub struct Seen {
    keys: Distinct<Key>,
    reads: Distinct<Read>,
}

impl Model for Seen {
    ghost use Rattle.std.specs.Coded.{codes};
    ghost use Rattle.mx_value.specs.contracts.value.Value as value;
    ghost use Rattle.mx_value.specs.contracts.value.Segment as segment;
    ghost use Rattle.mx_value.specs.contracts.node.Node as node;
    ghost use Rattle.mx_read_set.specs.Seen.{Seen as Readings};

    ghost Value = { Readings };

    ghost coded = { Prim.hlevel (codes, value.the_row.coded, segment.the_row.coded, node.the_row.coded) };

    ghost view = { λ s. record { keys = s.keys; reads = s.reads } };
}

impl Seen {
    /// Nothing is read yet.
    pub fn new(alloc: Global) -> Seen
        ensures { result ≡ nothing_seen }
    {
        Seen {
            keys: Distinct::new(alloc),
            reads: Distinct::new(alloc),
        }
    }

    /// The keys and the reads, without a copy.
    pub fn into_parts(self) -> (Distinct<Key>, Distinct<Read>)
        ensures keys { result.0 ≡ self.keys }
        ensures reads { result.1 ≡ self.reads }
    {
        let Seen { keys, reads } = self;
        (keys, reads)
    }

    /// A key is looked up.
    pub fn look(&mut self, key: Key) -> Result<(), AllocError>
        ensures { OnOk result (self.new ≡ with_key key self.old) }
    {
        self.keys.enter(key)
    }

    /// Something is noted as read.
    pub fn note(&mut self, read: Read) -> Result<(), AllocError>
        ensures { OnOk result (self.new ≡ with_read read self.old) }
    {
        self.reads.enter(read)
    }
}
