//! Numbers of a model text that may not pass their greatest.
ghost use Rattle.std.specs.Prelude.{◌≡◌, ◌+◌, length, nat_lt};
ghost use Rattle.mx_model.specs.Counts.{over, reference_total};

use mx_edit::refusal::Limit;
use mx_model::text::ModelText;

/// The first number of a text that passes its greatest, of its spaces, cells, references, tables and inputs in this order.
pub fn over(text: &ModelText) -> Option<Limit>
    ensures { result ≡ over text.now }
{
    if text.spaces().len() > 4_000 {
        return Some(Limit::Spaces);
    }
    if text.spaces().cell_count() > 10_000 {
        return Some(Limit::Cells);
    }
    if are_more_references(text, 20_000) {
        return Some(Limit::Refs);
    }
    if text.tables().count() > 100 {
        return Some(Limit::Tables);
    }
    if text.inputs().count() > 1_000_000 {
        return Some(Limit::Inputs);
    }
    return None;
}

/// Whether the model and the spaces have more references than so many.
fn are_more_references(text: &ModelText, most: usize) -> bool
    ensures { result ≡ nat_lt most (length text.now.globals + reference_total text.now.spaces) }
{
    let globals = text.globals().count();
    if globals > most {
        return true;
    }
    text.spaces().reference_count() > most - globals
}
