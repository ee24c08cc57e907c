//! Held nodes of which nothing that they rest on changes.
ghost use Rattle.std.specs.Prelude.{◌≡◌, ◌+◌, length};
ghost use Rattle.mx_model.specs.Keys.{is_changed};
ghost use Rattle.mx_vertices.specs.Inputs.{AreChanged};
ghost use Rattle.mx_vertices.specs.Kept.{HasChanged, IsTouched, Sifts};

use mx_edit::key::Key;
use mx_memo::{KeyTest, Memo};
use mx_model::laws::key_laws;
use mx_value::node::SharedNode;
use mx_world::changed::key_changed;
use mx_world::world::World;
use std::marker::Model;

/// Two worlds, with the nodes whose inputs differ. Contracts see their texts.
#[derive(Drop)]
struct Worlds<'w> {
    before: &'w World,
    after: &'w World,
    inputs: &'w [SharedNode],
}

impl<'w> Model for Worlds<'w> {
    ghost use Rattle.std.specs.Coded.{codes};
    ghost use Rattle.mx_value.specs.contracts.value.Value as value;
    ghost use Rattle.mx_value.specs.contracts.node.Node as node;
    ghost use Rattle.mx_syntax.specs.contracts.expr.Expr as expr;
    ghost use Rattle.mx_syntax.specs.contracts.stmt.Stmt as stmt;
    ghost use Rattle.mx_edit.specs.contracts.reference.RefValue as ref_value;
    ghost use Rattle.mx_model.specs.Keys.{is_changed};
    ghost use Rattle.mx_vertices.specs.Inputs.{AreChanged};
    ghost use Rattle.mx_retain.specs.Texts.{Texts};

    ghost Value = { Texts };

    ghost coded = { Prim.hlevel (codes, value.the_row.coded, node.the_row.coded, expr.the_row.coded, stmt.the_row.coded, ref_value.the_row.coded) };

    ghost view = { λ w. record { before = w.before.now; after = w.after.now } };

    ghost invariant = { λ w. AreChanged (is_changed w.before.now w.after.now) w.inputs.now };
}

impl<'w> KeyTest for Worlds<'w> {
    ghost use Rattle.mx_model.specs.Keys.{is_changed};

    ghost changed = { λ w. is_changed w.before w.after };

    fn is_changed(&self, key: &Key) -> bool {
        key_laws();
        key_changed(self.before, self.after, key)
    }

    fn changed_inputs(&self) -> &[SharedNode] {
        self.inputs
    }
}

/// Drops the held nodes that looked up what differs between two worlds, or reach one that did, and tells how many are dropped.
/// The nodes whose inputs differ are given. Takes no memory.
pub fn keep_unchanged(before: &World, after: &World, inputs: &[SharedNode], memo: &mut Memo) -> u32
    requires { AreChanged (is_changed before.now after.now) inputs.now }
    ensures drops { Sifts (IsTouched
        (HasChanged (is_changed before.now after.now)) memo.old.held) memo.old.held memo.new.held }
    ensures count { result + length memo.new.held ≡ length memo.old.held }
    ensures last { memo.new.last ≡ memo.old.last }
    ensures begun { memo.new.begun ≡ memo.old.begun }
{
    memo.keep_unchanged(&Worlds {
        before,
        after,
        inputs,
    })
}
