//! The merge of lists of spaces.
ghost use Rattle.std.specs.Prelude.{◌≡◌, false, IfOk};
ghost use Rattle.mx_c3.specs.Lists.{AllDistinct};
ghost use Rattle.mx_c3.specs.Merge.{merge, next, heads, each_once, in_tail, without_all, put_all, Answers};
ghost use Rattle.mx_c3.specs.Laws.{IsKept};
ghost use Rattle.mx_c3.specs.Counts.{IsCounted};
ghost use Rattle.mx_c3.specs.Taking.{drop_head, CanTake, Follows};

use crate::counts::tail_counts;
use crate::lists::Order;
use crate::refusal::C3Refusal;
use crate::remaining::Remaining;
use crate::space::SpaceId;
use crate::table::Table;
use mx_list::items::Items;
use std::alloc::{AllocError, Global};

/// Merges the lists into one order: the first head that is in no other list's tail comes first and is removed everywhere, and so on.
///
/// It takes memory in proportion to the lists and to the greatest place among their spaces.
pub fn merge(alloc: Global, lists: &[Order]) -> Result<Order, C3Refusal>
    requires { AllDistinct lists.now }
    ensures exact { Answers result (merge lists.now) }
    ensures kept { IfOk result (IsKept lists.now) }
{
    let mut table = Table::new(alloc);
    let begun = begin(alloc, lists)?;
    merge_onto(alloc, &mut table, Vec::new(alloc), begun)
}

/// The same behind an order that has begun. The table can be used again.
pub fn merge_onto(
    alloc: Global,
    table: &mut Table,
    begun: Vec<SpaceId>,
    lists: Vec<Remaining<'_>>,
) -> Result<Order, C3Refusal>
    requires { AllDistinct lists.items }
    ensures { Answers result (put_all begun.items (merge lists.entry.items)) }
{
    let mut order = begun;
    let mut counts = tail_counts(alloc, table, &lists)?;
    let mut rest = lists;
    while let Some(space) = next_head(&rest, &counts) {
        take(&mut rest, &mut counts, space);
        order.push(space)?;
    }
    let left = heads_left(alloc, &rest)?;
    if left.is_empty() {
        table.put(counts);
        return Ok(Order::from_vec(alloc, order)?);
    }
    Err(C3Refusal::NoOrder(Items::from_vec(left)))
}

fn begin(alloc: Global, lists: &[Order]) -> Result<Vec<Remaining<'_>>, AllocError>
    ensures { IfOk result (λ rest. rest.items ≡ lists.now) }
{
    let mut rest = Vec::with_capacity(alloc, lists.len())?;
    for list in lists {
        rest.push(Remaining::new(list.as_slice()))?;
    }
    Ok(rest)
}

/// The head to take: the first that stands in no tail.
fn next_head(rest: &[Remaining<'_>], counts: &[usize]) -> Option<SpaceId>
    requires { IsCounted rest.now counts.now }
    ensures { result ≡ next rest.now }
{
    for list in rest {
        let Some(space) = list.head() else {
            continue;
        };
        if counts[space.0 as usize] == 0 {
            return Some(space);
        }
    }
    None
}

/// Removes a head that stands in no tail.
fn take(rest: &mut [Remaining<'_>], counts: &mut [usize], space: SpaceId)
    requires counted { IsCounted rest.old counts.old }
    requires free { in_tail rest.old space ≡ false }
    ensures removed { rest.new ≡ without_all space rest.old }
    ensures counted { IsCounted rest.new counts.new }
{
    for i in 0..rest.len() {
        take_head(&mut rest[i], counts, space);
    }
}

/// Goes on to the list's next head where this is its head, which then leaves the tail.
fn take_head(list: &mut Remaining<'_>, counts: &mut [usize], space: SpaceId)
    requires { CanTake list.old counts.old }
    ensures list { list.new ≡ drop_head space list.old }
    ensures counted { Follows list.old counts.old list.new counts.new }
{
    let Some(head) = list.head() else {
        return;
    };
    if head != space {
        return;
    }
    list.step();
    let Some(next) = list.head() else {
        return;
    };
    counts[next.0 as usize] -= 1;
}

/// The heads in order of the lists, each once.
fn heads_left(alloc: Global, rest: &[Remaining<'_>]) -> Result<Vec<SpaceId>, AllocError>
    ensures { IfOk result (λ left. left.items ≡ each_once (heads rest.now)) }
{
    let mut left = Vec::new(alloc);
    for remaining in rest {
        let Some(head) = remaining.head() else {
            continue;
        };
        if !left.contains(&head) {
            left.push(head)?;
        }
    }
    Ok(left)
}
