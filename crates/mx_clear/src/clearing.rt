//! The clearings.
ghost use Rattle.std.specs.Prelude.{◌≡◌, ◌+◌, [], length};
ghost use Rattle.mx_vertices.specs.Kept.{IsTouched, IsToGo, Sifts};
ghost use Rattle.mx_clear.specs.Scope.{is_one, is_of_cells, is_in_space, is_any};

use crate::scope::{OfCells, OfSpace, One};
use mx_memo::{Every, Memo};
use mx_value::label::Label;
use mx_value::node::Node;
use mx_value::value::Addr;

/// Drops a node, where it is held, and tells how many nodes are dropped.
pub fn clear_node(memo: &mut Memo, node: &Node) -> u32
    ensures drops { Sifts (IsTouched
        (IsToGo (is_one node.now)) memo.old.held) memo.old.held memo.new.held }
    ensures count { result + length memo.new.held ≡ length memo.old.held }
    ensures last { memo.new.last ≡ memo.old.last }
    ensures begun { memo.new.begun ≡ memo.old.begun }
{
    memo.drop_where(&One { node })
}

/// Drops the nodes of the cells of a name in the space at exactly this address, and tells how many nodes are dropped.
pub fn clear_cells(memo: &mut Memo, at: &Addr, name: &Label) -> u32
    ensures drops { Sifts (IsTouched
        (IsToGo (is_of_cells at.now name.now)) memo.old.held) memo.old.held memo.new.held }
    ensures count { result + length memo.new.held ≡ length memo.old.held }
    ensures last { memo.new.last ≡ memo.old.last }
    ensures begun { memo.new.begun ≡ memo.old.begun }
{
    memo.drop_where(&OfCells { at, name })
}

/// Drops the nodes of the cells in the space at an address and below it, and the items whose spaces stand there, and tells
/// how many nodes are dropped.
pub fn clear_space(memo: &mut Memo, at: &Addr) -> u32
    ensures drops { Sifts (IsTouched
        (IsToGo (is_in_space at.now)) memo.old.held) memo.old.held memo.new.held }
    ensures count { result + length memo.new.held ≡ length memo.old.held }
    ensures last { memo.new.last ≡ memo.old.last }
    ensures begun { memo.new.begun ≡ memo.old.begun }
{
    memo.drop_where(&OfSpace { at })
}

/// Drops every node, and tells how many they are.
pub fn clear_all(memo: &mut Memo) -> u32
    ensures drops { Sifts (IsTouched (IsToGo is_any) memo.old.held) memo.old.held memo.new.held }
    ensures count { result + length memo.new.held ≡ length memo.old.held }
    ensures last { memo.new.last ≡ memo.old.last }
    ensures begun { memo.new.begun ≡ memo.old.begun }
{
    memo.drop_where(&Every)
}
