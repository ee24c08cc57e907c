//! How a run ends with what its formula returns.
ghost use Rattle.std.specs.Prelude.{◌≡◌, List as Many, Option as Maybe, IfOk};
ghost use Rattle.mx_value.specs.declared.label.Label.{Label as Bytes};
ghost use Rattle.mx_value.specs.declared.value.Value.{out-Value};
ghost use Rattle.mx_value.specs.declared.node.Node.{Node};
ghost use Rattle.mx_runs.specs.Runs.{Outcome};
ghost use Rattle.mx_meaning.specs.Nodes as spec;
ghost use Rattle.mx_meaning.specs.Statements as formula;
ghost use Rattle.mx_code_law.specs.Returning.{based_outcome, cells_outcome, item_outcome, made_outcome, outcome_of, sourced_outcome, value_outcome};
ghost use Rattle.mx_stack.specs.Returns.{returned_of};
ghost use Rattle.mx_lookup.specs.Endings.{based_on, ending_of};
ghost use Rattle.mx_lookup.specs.Homes.{home_of};

use crate::addresses::{add_item, names_of};
use crate::home::{Home, Work};
use crate::overlays::overlay_with;
use mx_edit::reply::Reply;
use mx_list::items::Items;
use mx_list::shared::Shared;
use mx_stack::returns::Returned;
use mx_value::fault::FaultKind;
use mx_value::label::Label;
use mx_value::namespace::{Namespace, Overlay};
use mx_value::node::Path;
use mx_value::value::Value;
use std::alloc::{AllocError, Global};

/// How a run ends.
#[derive(Drop)]
pub enum Ending {
    Gives(Shared<Reply>),
    /// The fault, with the line of the formula.
    Faults(FaultKind, u32),
    /// There is no such node.
    NoSuch,
    /// The node has more or fewer arguments than its formula takes.
    WrongCount,
}

/// How a run ends with what its formula returns.
pub fn end_with(alloc: Global, home: &Home, returned: Returned) -> Result<Ending, AllocError>
    ensures { IfOk result
        (λ e. ending_of home.now.node e ≡ outcome_of (home_of home.now) (returned_of returned)) }
{
    match &home.work {
        Work::Cells { allow_none } => return Ok(end_cells(alloc, *allow_none, returned)?),
        Work::Item { arguments, given } => {
            let item = Item {
                space: &home.space,
                arguments,
                given,
            };
            return Ok(end_item(alloc, item, returned)?);
        }
    }
}

/// How a run of cells ends.
fn end_cells(alloc: Global, allow_none: bool, returned: Returned) -> Result<Ending, AllocError>
    ensures { IfOk result
        (λ e. (n : Node) → ending_of n e ≡ cells_outcome allow_none n (returned_of returned)) }
{
    match returned {
        Returned::Plain(value) => return Ok(end_value(alloc, allow_none, value)?),
        Returned::Display(_, _) => return Ok(Ending::Faults(FaultKind::BadItem, 1)),
    }
}

/// How a run of cells ends with a value.
fn end_value(alloc: Global, allow_none: bool, value: Value) -> Result<Ending, AllocError>
    ensures { IfOk result
        (λ e. (n : Node) → ending_of n e ≡ cells_outcome allow_none n (formula.Plain value)) }
{
    match value {
        Value::Nothing => {
            if allow_none {
                return Ok(give_value(alloc, Value::Nothing)?);
            }
            return Ok(Ending::Faults(FaultKind::NoneReturned, 1));
        }
        other => return Ok(give_value(alloc, other)?),
    }
}

/// The end of a run with its value.
fn give_value(alloc: Global, value: Value) -> Result<Ending, AllocError>
    ensures { IfOk result (λ e. (n : Node) → ending_of n e ≡ value_outcome value) }
{
    let reply = Reply {
        value,
        namespace: None,
    };
    Ok(Ending::Gives(Shared::new(alloc, reply)?))
}

/// The item of a space: with these arguments, which are given for these parameters.
#[derive(Clone, Copy)]
struct Item<'a> {
    space: &'a Namespace,
    arguments: &'a Items<Value>,
    given: &'a Items<(Label, Value)>,
}

/// How a run that makes an item ends.
fn end_item(alloc: Global, item: Item<'_>, returned: Returned) -> Result<Ending, AllocError>
    ensures { IfOk result
        (λ e. (n : Node) →
        ending_of n e
        ≡ made_outcome n item.entry.space.now item.entry.arguments.now item.entry.given.now
        (returned_of returned)) }
{
    match returned {
        Returned::Plain(value) => return Ok(end_plain(alloc, item, &value)?),
        Returned::Display(references, base) => {
            return Ok(end_display(alloc, item, &references, base)?);
        }
    }
}

/// How a run that makes an item ends with a value. None alone makes one.
fn end_plain(alloc: Global, item: Item<'_>, value: &Value) -> Result<Ending, AllocError>
    ensures { IfOk result
        (λ e. (n : Node) →
        ending_of n e
        ≡ made_outcome n item.entry.space.now item.entry.arguments.now item.entry.given.now
        (formula.Plain value.now)) }
{
    let Value::Nothing = value else {
        return Ok(Ending::Faults(FaultKind::BadItem, 1));
    };
    let overlay = overlay_with(alloc, &item.space.overlay, item.given)?;
    let source = item.space.source.copy()?;
    return Ok(give_item(alloc, item, overlay, source)?);
}

/// How a run that makes an item ends with a display.
fn end_display(
    alloc: Global,
    item: Item<'_>,
    references: &Items<(Label, Value)>,
    base: Option<Box<Value>>,
) -> Result<Ending, AllocError>
    ensures { IfOk result
        (λ e. (n : Node) →
        ending_of n e
        ≡ made_outcome n item.entry.space.now item.entry.arguments.now item.entry.given.now
        (formula.Display references.now (based_on base))) }
{
    let Some(source) = source_of(alloc, item.space, base)? else {
        return Ok(Ending::Faults(FaultKind::BadItem, 1));
    };
    let given = overlay_with(alloc, &item.space.overlay, item.given)?;
    let overlay = overlay_with(alloc, &given, references)?;
    return Ok(give_item(alloc, item, overlay, source)?);
}

/// The source of an item: the path of its base, or that of the space called where it has none.
fn source_of(
    alloc: Global,
    space: &Namespace,
    base: Option<Box<Value>>,
) -> Result<Option<Path>, AllocError>
    ensures { IfOk result
        (λ s. (n : Node) (to : Many Bytes → Outcome) →
        sourced_outcome s n to ≡ based_outcome (based_on base) space.now n to) }
{
    match base {
        None => return Ok(Some(space.source.copy()?)),
        Some(base) => return Ok(path_in(alloc, &base)?),
    }
}

/// The names of the space that a value is, where its address has no items.
fn path_in(alloc: Global, value: &Value) -> Result<Option<Path>, AllocError>
    ensures { IfOk result (λ p. p ≡ spec.path_in (out-Value value.now)) }
{
    let Value::Space(at) = value else {
        return Ok(None);
    };
    return Ok(names_of(alloc, at)?);
}

/// The item, with this overlay and source.
fn give_item(
    alloc: Global,
    item: Item<'_>,
    overlay: Overlay,
    source: Path,
) -> Result<Ending, AllocError>
    ensures { IfOk result
        (λ e. (n : Node) →
        ending_of n e ≡ item_outcome item.entry.space.now item.entry.arguments.now overlay source) }
{
    let at = add_item(alloc, item.space.at.as_slice(), item.arguments)?;
    let value = Value::Space(at.copy()?);
    let namespace = Namespace {
        at,
        source,
        overlay,
    };
    let reply = Reply {
        value,
        namespace: Some(namespace),
    };
    return Ok(Ending::Gives(Shared::new(alloc, reply)?));
}
