//! The world of a text that the lines of a project's model file laid out.
ghost use Rattle.std.specs.Prelude.{◌≡◌, IfOk, MatchOption};
ghost use Rattle.mx_model.specs.Rings.{IsRing, HasNoRing};
ghost use Rattle.mx_paths.specs.Names.{IsNamed};
ghost use Rattle.mx_whole_edits.specs.Laid.{IsLaid};
ghost use Rattle.mx_prepare.specs.Completed.{over_with, Completes, CountsAreThose};

use crate::paths::with_paths;
use mx_apply::counts::over;
use mx_edit::refusal::{EditRefusal, Limit};
use mx_model::text::ModelText;
use mx_rings::rings::ring_of;
use mx_world::world::World;
use std::alloc::Global;

/// The world of a text after the last line of its model file, which names so many tables, or why the text is refused: a ring, a
/// number that passes its greatest, what the walk over the static paths meets.
pub fn world_of(alloc: Global, text: ModelText, tables: usize) -> Result<World, EditRefusal>
    requires laid { IsLaid text }
    requires named { IsNamed text }
    ensures { Completes text tables result }
{
    match ring_of(alloc, &text) {
        Ok(None) => {}
        Ok(Some(ring)) => return Err(EditRefusal::Cycle(ring)),
        Err(_) => return Err(EditRefusal::NoMemory),
    }
    match over_with(&text, tables) {
        Some(limit) => return Err(EditRefusal::TooMany(limit)),
        None => {}
    }
    return with_paths(alloc, text);
}

/// The first number of a text that passes its greatest, where so many tables are to come.
fn over_with(text: &ModelText, tables: usize) -> Option<Limit>
    ensures { result ≡ over_with text.now tables }
{
    match over(text) {
        Some(limit) => return Some(limit),
        None => {}
    }
    if tables > 100 {
        return Some(Limit::Tables);
    }
    return None;
}

/// The numbers that are looked at are those of the text with its tables, for proofs. Does nothing when it runs.
pub fn count_laws()
    ensures { CountsAreThose }
{}
