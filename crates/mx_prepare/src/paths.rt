//! The table of the static paths of a text.
ghost use Rattle.mx_model.specs.Sound.{IsSound};
ghost use Rattle.mx_paths.specs.Names.{IsNamed};
ghost use Rattle.mx_whole_edits.specs.Ready.{IsReady};
ghost use Rattle.mx_prepare.specs.Prepared.{IsWalked};

use mx_edit::refusal::EditRefusal;
use mx_list::shared::Shared;
use mx_model::text::ModelText;
use mx_paths::refusal::PathsRefusal;
use mx_paths::table::Paths;
use mx_world::world::World;
use std::alloc::Global;

/// The world of a text with the table of its static paths, or what the walk over these meets.
pub(crate) fn with_paths(alloc: Global, text: ModelText) -> Result<World, EditRefusal>
    requires ready { IsReady text }
    requires sound { IsSound text }
    requires named { IsNamed text }
    ensures { IsWalked text result }
{
    match Paths::build(alloc, &text) {
        Ok(paths) => match Shared::new(alloc, paths) {
            Ok(shared) => return Ok(World::of(text, shared)),
            Err(_) => return Err(EditRefusal::NoMemory),
        },
        Err(PathsRefusal::NoOrder(path)) => return Err(EditRefusal::NoOrder(path)),
        Err(PathsRefusal::TooMany(limit)) => return Err(EditRefusal::TooMany(limit)),
        Err(PathsRefusal::NoMemory) => return Err(EditRefusal::NoMemory),
    }
}
