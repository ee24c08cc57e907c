//! The engine.
ghost use Rattle.std.specs.Prelude.{◌≡◌, ◌↔◌, IfOk, IsTrue, length};
ghost use Rattle.mx_runs.specs.Lists.{Has};
ghost use Rattle.mx_answers.specs.Held.{nodes_of};
ghost use Rattle.mx_state.specs.Evaluations.{HasBoundForm};
ghost use Rattle.mx_state.specs.State.{IsRightState};
ghost use Rattle.mx_engine.specs.Engine.{first_state};
ghost use Rattle.mx_engine.specs.Proper.{IsProperState};

use crate::holds::holds;
use mx_machine::bound::bound;
use mx_memo::Memo;
use mx_value::node::Node;
use mx_world::laws::beginning_laws;
use mx_world::world::World;
use std::alloc::{AllocError, Global};
use std::marker::Model;

/// How many nodes a chain may have at first.
const FIRST_LIMIT: usize = 5_000;

/// A world with what is held for it. Contracts see the state, which is right and proper after each call.
#[derive(Drop)]
pub struct Engine {
    pub(crate) alloc: Global,
    pub(crate) world: World,
    pub(crate) memo: Memo,
    /// How many nodes a chain may have.
    pub(crate) limit: usize,
}

impl Model for Engine {
    ghost use Rattle.std.specs.Coded.{codes};
    ghost use Rattle.mx_value.specs.contracts.value.Value as value;
    ghost use Rattle.mx_value.specs.contracts.value.Segment as segment;
    ghost use Rattle.mx_value.specs.contracts.node.Node as node;
    ghost use Rattle.mx_syntax.specs.contracts.expr.Expr as expr;
    ghost use Rattle.mx_syntax.specs.contracts.stmt.Stmt as stmt;
    ghost use Rattle.mx_edit.specs.contracts.reference.RefValue as ref_value;
    ghost use Rattle.mx_machine.specs.States.{state_of};
    ghost use Rattle.mx_state.specs.State.{State};
    ghost use Rattle.mx_engine.specs.Engine.{IsEngine};

    ghost Value = { State };

    ghost coded = { Prim.hlevel (codes, value.the_row.coded, segment.the_row.coded, node.the_row.coded, expr.the_row.coded, stmt.the_row.coded, ref_value.the_row.coded) };

    ghost view = { λ e. state_of e.world e.memo e.limit };

    ghost invariant = { λ e. IsEngine e.world e.memo e.limit };
}

impl Engine {
    /// The engine of a new model, which has the one empty space Main, with nothing held.
    pub fn new(alloc: Global) -> Result<Engine, AllocError>
        ensures { IfOk result (λ e. e ≡ first_state) }
    {
        beginning_laws();
        mx_state::laws::laws();
        let world = World::new(alloc)?;
        let Ok(memo) = Memo::new(alloc) else {
            return Err(AllocError);
        };
        return Ok(Engine {
            alloc,
            world,
            memo,
            limit: FIRST_LIMIT,
        });
    }

    /// The world. With it comes what is true of each engine: its state is right, its text has small literals, and its held nodes
    /// are proper.
    pub fn world(&self) -> &World
        ensures exact { result.now ≡ self.now.text }
        ensures right { IsRightState self.now }
        ensures proper { IsProperState self.now }
    {
        &self.world
    }

    /// How many nodes are held.
    pub fn held_count(&self) -> u32
        ensures { result ≡ length self.now.held }
    {
        self.memo.count()
    }

    /// Whether a node, as it is written, is held. It looks at each held node.
    pub fn held(&self, node: &Node) -> bool
        ensures { IsTrue result ↔ Has (nodes_of self.now.held) node.now }
    {
        holds(&self.memo, node)
    }

    /// The bound form of a node, as far as what is held tells it.
    pub fn bound(&self, node: &Node) -> Result<Option<Node>, AllocError>
        ensures { IfOk result (HasBoundForm self.now node.now) }
    {
        bound(self.alloc, &self.world, &self.memo, node)
    }
}
