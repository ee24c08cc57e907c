//! The run of cells behind the walk of their address.
ghost use Rattle.std.specs.Prelude.{◌≡◌, IfOk};
ghost use Rattle.mx_edit.specs.declared.key.Key.TheVariants as key;
ghost use Rattle.mx_meaning.specs.Nodes.{cells_found};
ghost use Rattle.mx_runs.specs.Runs.{Looks};
ghost use Rattle.mx_state.specs.Model.{model_of};
ghost use Rattle.mx_node_runs.specs.Halts.{HaltsFrom};

use crate::arguments::begin_formula;
use crate::arrived::Arrived;
use crate::code::proceed;
use crate::halt::Halt;
use mx_edit::key::Key;
use mx_list::shared::Shared;
use mx_lookup::ending::Ending;
use mx_lookup::home::{Home, Work};
use mx_read_set::seen::Seen;
use mx_stack::stack::Stack;
use mx_value::label::Label;
use mx_world::world::World;
use std::alloc::{AllocError, Global};

/// Looks the cells up, and runs their formula.
pub fn enter_cells(
    alloc: Global,
    world: &World,
    arrived: Arrived<'_>,
    name: &Label,
    seen: &mut Seen,
    stack: &mut Stack,
) -> Result<Halt, AllocError>
    ensures { IfOk result (λ halt.
        HaltsFrom (model_of world.now) arrived.entry.node.now
        (Looks (key.Cells arrived.entry.space.source name.now)
        (cells_found arrived.entry.node.now arrived.entry.space arrived.entry.arguments.now))
        seen.old seen.new halt stack.old stack.new) }
{
    let Arrived {
        node,
        arguments,
        space,
    } = arrived;
    seen.look(Key::Cells(space.source.copy()?, name.copy()?))?;
    let Some(cells) = world.compiled(&space.source, name) else {
        return Ok(Halt::Ends(Ending::NoSuch));
    };
    if !begin_formula(alloc, cells.formula, arguments, stack)? {
        return Ok(Halt::Ends(Ending::WrongCount));
    }
    let code = cells.formula.share_code()?;
    let work = Work::Cells {
        allow_none: cells.allow_none,
    };
    let home = Home {
        node: node.copy()?,
        space,
        work,
    };
    let home = Shared::new(alloc, home)?;
    proceed(alloc, world, home, code, seen, stack)
}
