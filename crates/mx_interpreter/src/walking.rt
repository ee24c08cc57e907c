//! The walk of an instruction, which is done before what it does where it ends.
ghost use Rattle.std.specs.Prelude.{◌≡◌, [], ℕ, Option as Maybe, Some, option_copied, IfOk};
ghost use Rattle.mx_value.specs.declared.value.Value.{Value as Values};
ghost use Rattle.mx_model.specs.Keys.{key_result};
ghost use Rattle.mx_code_law.specs.States.{Home, Next, State};
ghost use Rattle.mx_code_law.specs.Finding.{Again, Place};
ghost use Rattle.mx_stack.specs.Walks.{place_of};
ghost use Rattle.mx_read_set.specs.Seen.{Seen as Readings};
ghost use Rattle.mx_read_set.specs.Passed.{passed};
ghost use Rattle.mx_walks.specs.Calls.{called_as};
ghost use Rattle.mx_interpreter.specs.Walking.{IsWalk, come_as};

use mx_stack::rest::Onward;
use mx_stack::walks::Way;
use mx_value::namespace::Namespace;
use mx_value::node::SharedNode;
use mx_value::value::Addr;
use mx_walks::called::Called;
use mx_walks::near::walk_near;
use mx_walks::walks::Walked;
use mx_world::world::World;
use std::alloc::{AllocError, Global};

/// Where the walk of an instruction comes to.
#[derive(Drop)]
pub enum Come {
    /// To its end, where there is one: the instruction goes on from here.
    Here(Option<Way>),
    /// To an item node that it asks, with the segments behind it.
    Asks(SharedNode, Onward),
    NoSuch,
    WrongCount,
}

/// Walks on to an address, where the instruction walks to one. Near is the space where the formula runs.
pub fn walk_first(
    alloc: Global,
    world: &World,
    near: &Namespace,
    way: Option<Way>,
    at: Option<&Addr>,
) -> Result<Come, AllocError>
    ensures { IfOk result (λ come. (walk : Place → Next) (again : Again) (seen : Readings) → IsWalk walk (option_copied at.entry) again
        → passed (key_result world.now) (walk (place_of way)) seen ≡ passed (key_result world.now) (come_as come walk again) seen) }
{
    let Some(at) = at else {
        return Ok(Come::Here(way));
    };
    match walk_near(alloc, world, near, way, at)? {
        Walked::Came(space) => return Ok(Come::Here(Some(end_of(at, space)?))),
        Walked::Asks(node, rest) => return Ok(Come::Asks(node, rest)),
        Walked::NoSuch => return Ok(Come::NoSuch),
        Walked::WrongCount => return Ok(Come::WrongCount),
    }
}

/// The end of the walk of an address.
fn end_of(at: &Addr, space: Namespace) -> Result<Way, AllocError>
    ensures { IfOk result (λ way. place_of (Some way) ≡ Some ([], Some space)) }
{
    let rest = Onward::behind(at.copy()?, at.len());
    Ok(Way {
        rest,
        came: Some(space),
    })
}

/// What was led to from the end of a walk, where nothing more is walked.
pub fn led_to(called: Called) -> Result<Called, AllocError>
    ensures { IfOk result (λ led. (h : Home) (line : ℕ) (again other : Again) (to : Values → State)
        → called_as h line called again to ≡ called_as h line led other to) }
{
    match called {
        Called::Leaves(value) => return Ok(Called::Leaves(value)),
        Called::Asks(node) => return Ok(Called::Asks(node)),
        Called::AsksOnWalk(_, _) => return Err(AllocError),
        Called::Faults(kind) => return Ok(Called::Faults(kind)),
        Called::NoSuch => return Ok(Called::NoSuch),
        Called::WrongCount => return Ok(Called::WrongCount),
    }
}
