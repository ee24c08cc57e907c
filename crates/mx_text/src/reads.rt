//! What a node reads.
ghost use Rattle.std.specs.Prelude.{◌≡◌, ◌++◌, OnOk};
ghost use Rattle.mx_text.specs.Reads.{read_text};

use crate::address::push_address;
use mx_print::append::push;
use mx_print::value::push_node;
use mx_value::read::Read;
use std::alloc::{AllocError, Global};

/// Adds one thing that a run read.
pub fn push_read(alloc: Global, out: &mut Vec<u8>, read: &Read) -> Result<(), AllocError>
    ensures { OnOk result (out.new.items ≡ out.old.items ++ read_text read.now) }
{
    match read {
        Read::Node(node) => push_node(out, node.get()),
        Read::Ref(at, name) => {
            push(out, b"ref ")?;
            push_address(alloc, out, at)?;
            push(out, b".")?;
            push(out, name.as_slice())
        }
        Read::Global(name) => {
            push(out, b"global ")?;
            push(out, name.as_slice())
        }
        Read::Table(name) => {
            push(out, b"table ")?;
            push(out, name.as_slice())
        }
    }
}
