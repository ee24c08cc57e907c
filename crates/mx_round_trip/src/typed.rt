//! What holds of every value that a program has, since its types allow no other.

ghost use Rattle.std.specs.Prelude.{◌≡◌, ◌≤◌, true};
ghost use Rattle.std.specs.List.{list_all};
ghost use Rattle.mx_value.specs.Label.{is_printable};
ghost use Rattle.mx_value.specs.Nesting.{nesting_of};
ghost use Rattle.mx_value.specs.Plain.{is_plain};
ghost use Rattle.mx_round_trip.specs.PlainValues.{IsSpelledByText, is_typed, is_typed_segment, is_typed_cells};

use crate::laws::plain_values_read_back;
use mx_list::items::Items;
use mx_value::label::Label;
use mx_value::value::{Addr, CellsAt, Segment, Value};

/// The printed text of a plain value within the limits spells it.
pub fn plain_value_reads_back(value: &Value)
    ensures { is_plain value.now ≡ true → nesting_of value.now ≤ 64 → IsSpelledByText value.now }
{
    value_is_typed(value);
    plain_values_read_back();
}

/// The numbers of each value are in range and its texts printable. The ranges are known of what is read, so it reads all of the
/// value, and does nothing else.
#[cycle(typed)]
pub fn value_is_typed(value: &Value)
    ensures { is_typed value.now ≡ true }
{
    match value {
        Value::Nothing | Value::Flag(_) => {}
        Value::Int(n) => {
            let _number = *n;
        }
        Value::Fix(x) => {
            let _raw = x.raw();
        }
        Value::Text(text) => label_is_printable(text),
        Value::Tup(items) => values_are_typed(items),
        Value::Space(at) => segments_are_typed(at),
        Value::Cells(cells) => cells_are_typed(cells),
        Value::Table(name) => label_is_printable(name),
    }
}

#[cycle(typed)]
fn values_are_typed(items: &Items<Value>)
    ensures { list_all is_typed items.now ≡ true }
{
    for item in items.as_slice() {
        value_is_typed(item);
    }
}

#[cycle(typed)]
fn segment_is_typed(segment: &Segment)
    ensures { is_typed_segment segment.now ≡ true }
{
    match segment {
        Segment::Name(name) => label_is_printable(name),
        Segment::Item(items) => values_are_typed(items),
    }
}

#[cycle(typed)]
fn segments_are_typed(at: &Addr)
    ensures { list_all is_typed_segment at.now ≡ true }
{
    for segment in at.as_slice() {
        segment_is_typed(segment);
    }
}

#[cycle(typed)]
fn cells_are_typed(cells: &CellsAt)
    ensures { is_typed_cells cells.now ≡ true }
{
    segments_are_typed(&cells.space);
    label_is_printable(&cells.name);
}

fn label_is_printable(label: &Label)
    ensures { list_all is_printable label.now ≡ true }
{
    let _bytes = label.as_slice();
}
