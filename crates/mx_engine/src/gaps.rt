//! The stamps of a memo: without gaps where these are many, and the nodes of the first stamps alone.
ghost use Rattle.std.specs.Prelude.{◌≡◌, ◌+◌, ◌*◌, ◌≤◌, length, take};
ghost use Rattle.mx_memo_laws.specs.Entries.{entries_of, IsOrdered};

use mx_memo::Memo;

/// So many stamps without a held node are left as they are.
const SPARE: usize = 1_000_000;

/// Gives the held nodes stamps without a gap, where most of those that were given are of nodes that were dropped. So the memory
/// of a memo is in proportion to the most that were held at a time, and the cost to what was dropped.
pub(crate) fn close_gaps(memo: &mut Memo)
    requires { IsOrdered memo.old }
    ensures entries { entries_of memo.new.held ≡ entries_of memo.old.held }
    ensures ordered { IsOrdered memo.new }
    ensures few { memo.new.last ≤ 2 * (length memo.new.held + 1000000) }
    ensures begun { memo.new.begun ≡ memo.old.begun }
{
    mx_memo_laws::laws::laws();
    let used = memo.count() as usize;
    if memo.last_stamp() / 2 < used + SPARE {
        return;
    }
    memo.renumber();
}

/// Drops all held nodes but the first ones.
pub(crate) fn keep_first(memo: &mut Memo, count: u32)
    requires ordered { IsOrdered memo.old }
    requires few { count ≤ length memo.old.held }
    ensures entries { entries_of memo.new.held ≡ take count (entries_of memo.old.held) }
    ensures ordered { IsOrdered memo.new }
    ensures begun { memo.new.begun ≡ memo.old.begun }
{
    mx_memo_laws::laws::laws();
    memo.renumber();
    memo.roll_back_to(count as usize);
}
