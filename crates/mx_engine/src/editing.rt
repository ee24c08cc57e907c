//! Edits.
ghost use Rattle.std.specs.Prelude.{◌≡◌, ◌+◌, ℕ, IfOk, OnErr, OnOk, length};
ghost use Rattle.mx_model.specs.Literals.{IsRead};
ghost use Rattle.mx_state.specs.Changes.{Edits};
ghost use Rattle.mx_limit_laws.specs.Texts.{HasSmallFormula, HasSmallTable};
ghost use Rattle.mx_engine.specs.Edited.{HasEdited};
ghost use Rattle.mx_engine.specs.Refused.{IsRefusedBy};

use crate::engine::Engine;
use mx_edit::edit::Edit;
use mx_edit::refusal::EditRefusal;
use mx_memo::Memo;
use mx_prepare::prepare::{commit, prepare};
use mx_retain::inputs::changed_by;
use mx_retain::retain::keep_unchanged;
use mx_world::world::World;
use std::alloc::Global;

impl Engine {
    /// Changes the text, and tells how many held nodes are dropped: those that looked up what is changed, and all that reach
    /// one of them. A refused edit changes nothing. All memory is taken before anything changes.
    pub fn edit(&mut self, edit: &Edit) -> Result<u32, EditRefusal>
        requires read { IsRead edit.now }
        requires small { HasSmallFormula edit.now }
        ensures accepted { OnOk result (Edits self.old edit.now self.new) }
        ensures dropped { IfOk result (λ n. n + length self.new.held ≡ length self.old.held) }
        ensures refused { OnErr result (self.new ≡ self.old) }
        ensures exact { IsRefusedBy self.old.text edit.now result }
    {
        table_limits(edit);
        change(self.alloc, edit, &mut self.world, &mut self.memo)
    }
}

/// The numbers of a table that an edit sets are within the limits, for proofs. Changes nothing.
fn table_limits(edit: &Edit)
    ensures { HasSmallTable edit.now }
{
    mx_limit_laws::laws::laws();
    match edit {
        Edit::SetTable { name: _, table } => table.limits(),
        _ => {}
    }
}

/// Changes a world and what is held for it.
fn change(
    alloc: Global,
    edit: &Edit,
    world: &mut World,
    memo: &mut Memo,
) -> Result<u32, EditRefusal>
    requires { IsRead edit.now }
    ensures accepted { OnOk result (HasEdited world.old memo.old edit.now world.new memo.new) }
    ensures dropped { IfOk result (λ n. n + length memo.new.held ≡ length memo.old.held) }
    ensures text { OnErr result (world.new ≡ world.old) }
    ensures held { OnErr result (memo.new ≡ memo.old) }
    ensures exact { IsRefusedBy world.old edit.now result }
{
    mx_state::laws::laws();
    mx_memo_laws::laws::laws();
    let prepared = match prepare(alloc, world, edit) {
        Ok(prepared) => prepared,
        Err(why) => return Err(why),
    };
    let next = prepared.world();
    let _ = next.text();
    let Ok(inputs) = changed_by(alloc, world, next, edit) else {
        return Err(EditRefusal::NoMemory);
    };
    let dropped = keep_unchanged(world, next, inputs.as_slice(), memo);
    commit(prepared, world);
    return Ok(dropped);
}
