//! The run of an item behind the walk of its address.
ghost use Rattle.std.specs.Prelude.{◌≡◌, IfOk};
ghost use Rattle.mx_meaning.specs.Nodes.{item_made, item_run};
ghost use Rattle.mx_meaning.specs.Walks.{bound_or_refused};
ghost use Rattle.mx_state.specs.Model.{model_of};
ghost use Rattle.mx_node_runs.specs.Halts.{HaltsFrom};

use crate::arguments::name_arguments;
use crate::arrived::Arrived;
use crate::code::proceed;
use crate::halt::Halt;
use mx_code::compiled::CompiledParams;
use mx_edit::key::Key;
use mx_list::shared::Shared;
use mx_lookup::ending::Ending;
use mx_lookup::home::{Home, Work};
use mx_read_set::seen::Seen;
use mx_stack::stack::Stack;
use mx_syntax::bind::{BindRefusal, bind};
use mx_value::copies::copy_items;
use mx_walks::items::ends_with_name;
use mx_walks::spaces::is_allowed;
use mx_world::world::World;
use std::alloc::{AllocError, Global};

/// Looks the parameters of the space up, and makes its item.
pub fn enter_item(
    alloc: Global,
    world: &World,
    arrived: Arrived<'_>,
    seen: &mut Seen,
    stack: &mut Stack,
) -> Result<Halt, AllocError>
    ensures { IfOk result (λ halt.
        HaltsFrom (model_of world.now) arrived.entry.node.now
        (item_run arrived.entry.node.now arrived.entry.arguments.now arrived.entry.space)
        seen.old seen.new halt stack.old stack.new) }
{
    if !ends_with_name(arrived.space.at.as_slice()) {
        return Ok(Halt::Ends(Ending::NoSuch));
    }
    seen.look(Key::Params(arrived.space.source.copy()?))?;
    match world.params(&arrived.space.source) {
        Some(params) => return make_item(alloc, world, arrived, params, seen, stack),
        None => return Ok(Halt::Ends(Ending::NoSuch)),
    }
}

/// Makes the item of a space with these parameters.
fn make_item(
    alloc: Global,
    world: &World,
    arrived: Arrived<'_>,
    compiled: &CompiledParams,
    seen: &mut Seen,
    stack: &mut Stack,
) -> Result<Halt, AllocError>
    ensures { IfOk result (λ halt.
        HaltsFrom (model_of world.now) arrived.entry.node.now
        (bound_or_refused compiled.now.params arrived.entry.arguments.now
        (item_made compiled.now.body compiled.now.params arrived.entry.node.now arrived.entry.space))
        seen.old seen.new halt stack.old stack.new) }
{
    let Arrived {
        node,
        arguments,
        space,
    } = arrived;
    let params = compiled.params().params.as_slice();
    match bind(alloc, params, copy_items(alloc, arguments)?) {
        Ok(full) => {
            if !is_allowed(&space.at, &full) {
                return Ok(Halt::Ends(Ending::NoSuch));
            }
            stack.enter(alloc, full.as_slice(), compiled.code().size)?;
            let given = name_arguments(alloc, params, full.as_slice())?;
            let work = Work::Item {
                arguments: full,
                given,
            };
            let home = Home {
                node: node.copy()?,
                space,
                work,
            };
            let home = Shared::new(alloc, home)?;
            return proceed(alloc, world, home, compiled.share_code()?, seen, stack);
        }
        Err(BindRefusal::WrongCount) => return Ok(Halt::Ends(Ending::WrongCount)),
        Err(BindRefusal::NoMemory) => return Err(AllocError),
    }
}
