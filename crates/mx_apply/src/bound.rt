//! The arguments of inputs in bound form.
ghost use Rattle.std.specs.Prelude.{◌≡◌, false, IfOk};
ghost use Rattle.mx_value.specs.declared.node.Node.TheVariants as node;
ghost use Rattle.mx_model.specs.Inputs.{cells_params, path_of};
ghost use Rattle.mx_model.specs.Refused.{do_not_bind};
ghost use Rattle.mx_model.specs.Change.{bound_at};
ghost use Rattle.mx_model.specs.Sound.{IsSound};

use crate::statics::cells_formula;
use mx_changes::inputs::node_of;
use mx_list::items::Items;
use mx_model::text::ModelText;
use mx_syntax::bind::{BindRefusal, bind};
use mx_value::copies::copy_items;
use mx_value::label::Label;
use mx_value::node::Node;
use mx_value::value::{Addr, Value};
use std::alloc::{AllocError, Global};

/// The arguments of an input in bound form, where they bind.
pub fn bound_args(
    alloc: Global,
    text: &ModelText,
    at: &Addr,
    name: &Label,
    args: &Items<Value>,
) -> Result<Items<Value>, AllocError>
    requires sound { IsSound text.now }
    requires binds { let params = cells_params text.now (path_of at.now) name.now in
        do_not_bind params args.now ≡ false }
    ensures { IfOk result (λ full. full ≡ bound_at text.now at.now name.now args.now) }
{
    let copied = copy_items(alloc, args)?;
    match cells_formula(alloc, text, at, name)? {
        Some(formula) => match bind(alloc, formula.params.as_slice(), copied) {
            Ok(full) => return Ok(full),
            Err(BindRefusal::WrongCount) => unreachable!(),
            Err(BindRefusal::NoMemory) => return Err(AllocError),
        },
        None => return Ok(copied),
    }
}

/// The node of an input with its arguments in bound form, where they bind.
pub fn bound_node(
    alloc: Global,
    text: &ModelText,
    at: &Addr,
    name: &Label,
    args: &Items<Value>,
) -> Result<Node, AllocError>
    requires sound { IsSound text.now }
    requires binds { let params = cells_params text.now (path_of at.now) name.now in
        do_not_bind params args.now ≡ false }
    ensures { let full = bound_at text.now at.now name.now args.now in
        IfOk result (λ n. n ≡ node.Cell at.now name.now full) }
{
    let full = bound_args(alloc, text, at, name, args)?;
    node_of(at, name, full)
}
