//! Clearings, and other worlds.
ghost use Rattle.std.specs.Prelude.{◌≡◌, ◌+◌, [], length};
ghost use Rattle.mx_state.specs.Changes.{Clearing};
ghost use Rattle.mx_limit_laws.specs.Texts.{HasSmallFormulas};
ghost use Rattle.mx_engine.specs.Scopes.{DropsScope};

use crate::engine::Engine;
use mx_clear::{clear_all, clear_cells, clear_node, clear_space};
use mx_edit::scope::Scope;
use mx_memo::Memo;
use mx_world::world::World;

impl Engine {
    /// Drops the held nodes in a scope and all held nodes that reach one of them, and tells how many. Inputs stay. Takes no
    /// memory.
    pub fn clear(&mut self, scope: &Scope) -> u32
        ensures clears { Clearing self.old scope.now self.new }
        ensures dropped { result + length self.new.held ≡ length self.old.held }
    {
        mx_state::laws::laws();
        mx_memo_laws::laws::laws();
        clear_in(&mut self.memo, scope)
    }

    /// Puts another world in the place of the engine's own. Nothing is held then, and the limit stays. Takes no memory. Goes
    /// once over the tables of the text.
    pub fn replace(&mut self, world: World)
        requires { HasSmallFormulas world }
        ensures { self.new ≡ record self.old { text = world; held = [] } }
    {
        mx_state::laws::laws();
        world.text().table_limits();
        clear_all(&mut self.memo);
        self.world = world;
    }
}

/// Drops what is held in a scope, with all that reach it, and tells how many nodes are dropped.
fn clear_in(memo: &mut Memo, scope: &Scope) -> u32
    ensures drops { DropsScope scope.now memo.old.held memo.new.held }
    ensures count { result + length memo.new.held ≡ length memo.old.held }
    ensures last { memo.new.last ≡ memo.old.last }
    ensures begun { memo.new.begun ≡ memo.old.begun }
{
    match scope {
        Scope::All => return clear_all(memo),
        Scope::Space(at) => return clear_space(memo, at),
        Scope::Cells(at, name) => return clear_cells(memo, at, name),
        Scope::One(node) => return clear_node(memo, node),
    }
}
