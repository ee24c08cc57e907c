//! Addresses.
ghost use Rattle.std.specs.Prelude.{◌≡◌, ◌++◌, IfOk, OnOk};
ghost use Rattle.mx_print.specs.Values.{address_text};

use mx_list::items::Items;
use mx_print::value::push_node;
use mx_value::node::Node;
use mx_value::value::Addr;
use std::alloc::{AllocError, Global};

/// Adds an address: what an item node without arguments is called, but for the brackets.
pub fn push_address(alloc: Global, out: &mut Vec<u8>, at: &Addr) -> Result<(), AllocError>
    ensures { OnOk result (out.new.items ≡ out.old.items ++ address_text at.now) }
{
    push_node(
        out,
        &Node::Item(at.copy()?, Items::from_vec(Vec::new(alloc))),
    )?;
    let end = out.len().saturating_sub(2);
    out.truncate(end);
    Ok(())
}

/// The text of an address.
pub fn text_of_addr(alloc: Global, at: &Addr) -> Result<Vec<u8>, AllocError>
    ensures { IfOk result (λ text. text.items ≡ address_text at.now) }
{
    let mut text = Vec::new(alloc);
    push_address(alloc, &mut text, at)?;
    Ok(text)
}
