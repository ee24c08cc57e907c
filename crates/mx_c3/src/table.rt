//! A table for the counts of tails, which merges use in turn.
ghost use Rattle.std.specs.Prelude.{◌≡◌, ◌≤◌, [], length, IfOk};
ghost use Rattle.mx_c3.specs.Counts.{AreZeros};

use std::alloc::{AllocError, Global};
use std::marker::Model;
use std::mem;

/// Counts that are all zero, by the spaces' places. A merge leaves them so, and the next one needs no memory for a table.
#[derive(Drop)]
pub struct Table {
    counts: Vec<usize>,
}

impl Model for Table {
    ghost use Rattle.std.specs.Prelude.{List, ℕ};
    ghost use Rattle.mx_c3.specs.Counts.{AreZeros};

    ghost Value = { List ℕ };

    ghost view = { λ t. t.counts.items };

    ghost invariant = { λ t. AreZeros t.counts.items };
}

impl Table {
    pub fn new(alloc: Global) -> Table
        ensures { result ≡ [] }
    {
        Table {
            counts: Vec::new(alloc),
        }
    }

    /// Takes the counts out, at least so many.
    pub(crate) fn take(&mut self, alloc: Global, least: usize) -> Result<Vec<usize>, AllocError>
        ensures zeros { IfOk result (λ counts. AreZeros counts.items) }
        ensures long { IfOk result (λ counts. least ≤ length counts.items) }
    {
        grown(mem::replace(&mut self.counts, Vec::new(alloc)), least)
    }

    /// Puts the counts back.
    pub(crate) fn put(&mut self, counts: Vec<usize>)
        requires { AreZeros counts.items }
        ensures { self.new ≡ counts.items }
    {
        self.counts = counts;
    }
}

/// These counts with zeros behind them, at least so many.
fn grown(counts: Vec<usize>, least: usize) -> Result<Vec<usize>, AllocError>
    requires { AreZeros counts.items }
    ensures zeros { IfOk result (λ grown. AreZeros grown.items) }
    ensures long { IfOk result (λ grown. least ≤ length grown.items) }
{
    let mut counts = counts;
    while counts.len() < least {
        counts.push(0)?;
    }
    Ok(counts)
}
