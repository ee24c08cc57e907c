//! Edits of worlds.
ghost use Rattle.std.specs.Prelude.{◌≡◌, IsTrue};
ghost use Rattle.std.specs.List.{list_any};
ghost use Rattle.mx_prepare.specs.Shape as shape;
ghost use Rattle.mx_apply.specs.Chain.{CanGoOn};
ghost use Rattle.mx_model.specs.Apply.{changed};
ghost use Rattle.mx_model.specs.Valid.{Valid};
ghost use Rattle.mx_paths.specs.Names.{IsNamed};
ghost use Rattle.mx_model.specs.Literals.{IsRead};
ghost use Rattle.mx_whole_edits.specs.Ready.{IsReady};
ghost use Rattle.mx_whole_edits.specs.Whole.{IsAccepted};
ghost use Rattle.mx_prepare.specs.Prepared.{Prepares, IsWalked};
ghost use Rattle.mx_prepare.specs.Read as spec;

use crate::paths::with_paths;
use mx_apply::values::is_unfit;
use mx_edit::edit::Edit;
use mx_edit::refusal::EditRefusal;
use mx_model::text::ModelText;
use mx_syntax::stmt::Param;
use mx_whole_edits::whole::applied;
use mx_world::world::World;
use std::alloc::Global;
use std::marker::Model;

/// An accepted edit, with the world that it makes. Contracts see the text of that.
#[derive(Drop)]
pub struct Prepared {
    world: World,
}

impl Model for Prepared {
    ghost use Rattle.mx_model.specs.Records.{ModelRecord};
    ghost use Rattle.std.specs.Coded.{codes};
    ghost use Rattle.mx_value.specs.contracts.value.Value as value;
    ghost use Rattle.mx_value.specs.contracts.node.Node as node;
    ghost use Rattle.mx_syntax.specs.contracts.expr.Expr as expr;
    ghost use Rattle.mx_syntax.specs.contracts.stmt.Stmt as stmt;
    ghost use Rattle.mx_edit.specs.contracts.reference.RefValue as ref_value;

    ghost Value = { ModelRecord };

    ghost coded = { Prim.hlevel (codes, value.the_row.coded, node.the_row.coded, expr.the_row.coded, stmt.the_row.coded, ref_value.the_row.coded) };

    ghost view = { λ p. p.world };
}

impl Prepared {
    /// The world that the edit makes.
    pub fn world(&self) -> &World
        ensures { result.now ≡ self.now }
    {
        &self.world
    }
}

/// Whether the defaults of an edit's formula are plain and nested no deeper than a value may be, as those of each formula are
/// that was read.
pub fn is_read(edit: &Edit) -> bool
    ensures exact { result ≡ spec.is_read edit.now }
    ensures told { IsTrue result → IsRead edit.now }
{
    match edit {
        Edit::SetCells {
            path: _,
            name: _,
            formula,
        } => !is_one_unfit(formula.params.as_slice()),
        _ => true,
    }
}

/// Whether the default of one of the parameters is not plain or nested too deep.
fn is_one_unfit(params: &[Param]) -> bool
    ensures { result ≡ list_any spec.has_unfit_default params.now }
{
    params.iter().any(|param| has_unfit_default(param))
}

/// Whether the default of a parameter is not plain or nested too deep.
fn has_unfit_default(param: &Param) -> bool
    ensures { result ≡ spec.has_unfit_default param.now }
{
    match &param.default {
        Some(value) => is_unfit(value),
        None => false,
    }
}

/// Makes ready what an edit makes of a world: the new text without the inputs that then fit no cells, and its table, which is
/// that of the world where no space and no base changes. A formula of the edit is one that a parser gave.
pub fn prepare(alloc: Global, world: &World, edit: &Edit) -> Result<Prepared, EditRefusal>
    requires { IsRead edit.now }
    ensures { Prepares world.now edit.now result }
{
    match applied(alloc, world.text(), edit) {
        Ok(text) => return walked(alloc, world, edit, text),
        Err(why) => return Err(why),
    }
}

/// The text that an edit makes, with its table.
fn walked(
    alloc: Global,
    world: &World,
    edit: &Edit,
    text: ModelText,
) -> Result<Prepared, EditRefusal>
    requires accepted { IsAccepted world.now edit.now text }
    requires valid { Valid world.now }
    requires next { CanGoOn text }
    requires ready { IsReady text }
    requires named { IsNamed text }
    ensures { IsWalked (changed world.now edit.now) result }
{
    if keeps_shape(edit) {
        match world.shared_paths() {
            Ok(paths) => {
                return Ok(Prepared {
                    world: World::of(text, paths),
                });
            }
            Err(_) => return Err(EditRefusal::NoMemory),
        }
    }
    match with_paths(alloc, text) {
        Ok(made) => return Ok(Prepared { world: made }),
        Err(why) => return Err(why),
    }
}

/// Whether an edit makes and removes no space and sets no bases.
fn keeps_shape(edit: &Edit) -> bool
    ensures { result ≡ shape.keeps_shape edit.now }
{
    match edit {
        Edit::NewSpace { parent: _, name: _ } => false,
        Edit::DelSpace { path: _ } => false,
        Edit::SetBases { path: _, bases: _ } => false,
        _ => true,
    }
}

/// Puts the world that an edit makes in the place of another.
pub fn commit(prepared: Prepared, world: &mut World)
    ensures { world.new ≡ prepared }
{
    *world = prepared.world;
}
