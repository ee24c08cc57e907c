//! A text without the inputs that do not fit its cells.
ghost use Rattle.std.specs.Prelude.{◌≡◌, IfOk, if◌then◌else◌};
ghost use Rattle.std.specs.List.{filter, list_all};
ghost use Rattle.mx_value.specs.declared.value.Value.{Value as ValueRecord};
ghost use Rattle.mx_value.specs.declared.node.Node.{Node as NodeRecord};
ghost use Rattle.mx_members.specs.Words.{define};
ghost use Rattle.mx_model.specs.Keys.{node_eq};
ghost use Rattle.mx_model.specs.Inputs.{fits, without_unfit};

use crate::fitting::Fitting;
use mx_list::shared::Shared;
use mx_members::members::Members;
use mx_model::text::ModelText;
use mx_value::node::Node;
use mx_value::value::Value;
use std::alloc::{AllocError, Global};

/// The text without the inputs that do not fit its cells. Where all fit, it shares them.
pub fn without_unfit<F: Fitting>(
    alloc: Global,
    text: &ModelText,
    fitting: &F,
) -> Result<ModelText, AllocError>
    requires can { F.can_tell fitting.now }
    requires same { F.text fitting.now ≡ text.now }
    ensures { IfOk result (λ t. t ≡ without_unfit text.now) }
{
    if do_all_fit(alloc, text.inputs(), fitting)? {
        return text.copy(alloc);
    }
    let kept = those_that_fit(alloc, text.inputs(), fitting)?;
    return text.with_inputs(alloc, kept);
}

/// Whether all inputs fit.
fn do_all_fit<F: Fitting>(
    alloc: Global,
    inputs: &Members<Node, Shared<Value>>,
    fitting: &F,
) -> Result<bool, AllocError>
    requires { F.can_tell fitting.now }
    ensures { let fit = λ (input : NodeRecord × ValueRecord). fits (F.text fitting.now) input.0 in
        IfOk result (λ told. told ≡ list_all fit inputs.now) }
{
    for place in 0..inputs.count() {
        let Some((node, _)) = inputs.at(place) else {
            unreachable!()
        };
        if !fitting.fits(alloc, node)? {
            return Ok(false);
        }
    }
    return Ok(true);
}

/// The inputs that fit, in their order. Their values are shared.
fn those_that_fit<F: Fitting>(
    alloc: Global,
    inputs: &Members<Node, Shared<Value>>,
    fitting: &F,
) -> Result<Members<Node, Shared<Value>>, AllocError>
    requires { F.can_tell fitting.now }
    ensures { let fit = λ (input : NodeRecord × ValueRecord). fits (F.text fitting.now) input.0 in
        IfOk result (λ kept. kept ≡ filter fit inputs.now) }
{
    let mut kept = Members::new(alloc)?;
    for place in 0..inputs.count() {
        let Some((node, value)) = inputs.at(place) else {
            unreachable!()
        };
        let fits = fitting.fits(alloc, node)?;
        keep(alloc, &mut kept, fits, node, value)?;
    }
    return Ok(kept);
}

/// Keeps one input more, where it fits.
fn keep(
    alloc: Global,
    kept: &mut Members<Node, Shared<Value>>,
    fits: bool,
    node: &Node,
    value: &Shared<Value>,
) -> Result<(), AllocError>
    ensures { let more = define node_eq kept.old node.now value.now in
        IfOk result (λ _. kept.new ≡ (if fits then more else kept.old)) }
{
    if fits {
        kept.define(node.copy(alloc)?, value.copy()?)?;
        return Ok(());
    }
    return Ok(());
}
