//! In how many tails each space stands.
ghost use Rattle.std.specs.Prelude.{◌≡◌, ◌-◌, ◌^◌, ◌<◌, ◌≤◌, length, slice_index, IfOk};
ghost use Rattle.mx_c3.specs.declared.space.SpaceId.{SpaceId as Space};
ghost use Rattle.mx_c3.specs.Lists.{Has, Among, Distinct, AllDistinct};
ghost use Rattle.mx_c3.specs.Merge.{tail};
ghost use Rattle.mx_c3.specs.Counts.{IsCounted, CountsMore};

use crate::remaining::Remaining;
use crate::space::SpaceId;
use crate::table::Table;
use std::alloc::{AllocError, Global};

/// The table with counts of the lists' spaces, by their places: in how many tails each stands.
pub fn tail_counts(
    alloc: Global,
    table: &mut Table,
    lists: &[Remaining<'_>],
) -> Result<Vec<usize>, AllocError>
    requires { AllDistinct lists.now }
    ensures { IfOk result (λ counts. IsCounted lists.now counts.items) }
{
    let mut counts = table.take(alloc, bound_of_all(lists))?;
    for list in lists {
        count_tail(list.as_slice(), &mut counts);
    }
    Ok(counts)
}

/// Above the place of each space of the lists.
fn bound_of_all(lists: &[Remaining<'_>]) -> usize
    ensures { (x : Space) → Among lists.now x → x.0 < result }
{
    let mut bound = 0;
    for list in lists {
        bound = bound_of(list.as_slice(), bound);
    }
    bound
}

/// At least `least`, and above the place of each of the spaces.
fn bound_of(spaces: &[SpaceId], least: usize) -> usize
    ensures least { least ≤ result }
    ensures above { (x : Space) → Has spaces.now x → x.0 < result }
{
    let mut bound = least;
    for space in spaces {
        bound = bound.max(space.0 as usize + 1);
    }
    bound
}

fn count_tail(spaces: &[SpaceId], counts: &mut [usize])
    requires distinct { Distinct spaces.now }
    requires room { (x : Space) → Has spaces.now x → x.0 < length counts.old }
    requires below { (x : Space) → x.0 < length counts.old →
        slice_index counts.old x.0 < 2 ^ 64 - 1 }
    ensures { CountsMore counts.old (tail spaces.now) counts.new }
{
    if let [_, tail @ ..] = spaces {
        count_all(tail, counts);
    }
}

fn count_all(spaces: &[SpaceId], counts: &mut [usize])
    requires distinct { Distinct spaces.now }
    requires room { (x : Space) → Has spaces.now x → x.0 < length counts.old }
    requires below { (x : Space) → x.0 < length counts.old →
        slice_index counts.old x.0 < 2 ^ 64 - 1 }
    ensures { CountsMore counts.old spaces.now counts.new }
{
    for space in spaces {
        counts[space.0 as usize] += 1;
    }
}
