//! Whether a node is held.
ghost use Rattle.std.specs.Prelude.{◌≡◌, ◌↔◌, IsTrue};
ghost use Rattle.mx_runs.specs.Lists.{Has};
ghost use Rattle.mx_answers.specs.Held.{nodes_of};
ghost use Rattle.mx_memo_laws.specs.Entries.{entries_of, IsOrdered};

use mx_memo::Memo;
use mx_value::node::Node;

/// Whether a node is held.
pub(crate) fn holds(memo: &Memo, node: &Node) -> bool
    requires { IsOrdered memo.now }
    ensures { IsTrue result ↔ Has (nodes_of (entries_of memo.now.held)) node.now }
{
    mx_memo_laws::laws::laws();
    let mut seen = 0;
    while let Some(id) = memo.after(seen) {
        let Some(body) = memo.body(id) else {
            unreachable!()
        };
        let Some(stamp) = memo.stamp(id) else {
            unreachable!()
        };
        if *body.node.get() == *node {
            return true;
        }
        seen = stamp;
    }
    return false;
}
