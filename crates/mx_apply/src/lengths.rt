//! The lengths of the texts of values, nodes and paths: counted up to a bound, and no text is made.
//! Each function takes the room that there is and answers what is left of it behind the text, or
//! None as soon as the text is known not to fit.
ghost use Rattle.std.specs.Prelude.{◌≡◌, ◌==◌, map, length, if◌then◌else◌};
ghost use Rattle.mx_print.specs.Texts.{commas};
ghost use Rattle.mx_print.specs.Values as spec;
ghost use Rattle.mx_print.specs.Values.{value_text, segment_text, node_text};
ghost use Rattle.mx_model.specs.Walk.{path_text};
ghost use Rattle.mx_apply.specs.Room.{IsRoom};

use mx_value::fixed::Fixed;
use mx_value::label::Label;
use mx_value::node::{Node, Path};
use mx_value::value::{CellsAt, Segment, Value};

/// The room behind so many bytes.
fn room_after(bytes: usize, room: usize) -> Option<usize>
    ensures { IsRoom result room bytes }
{
    room.checked_sub(bytes)
}

/// How many bytes stand in front of the item at a place, where so many separate each two.
fn gap(place: usize, separator: usize) -> usize
    ensures { result ≡ (if place == 0 then 0 else separator) }
{
    if place == 0 { 0 } else { separator }
}

/// How many decimals are shown of so many: none of the zeros at their end but the first decimal.
fn decimals_length(digits: u8, number: u64) -> usize
    ensures { result ≡ length (spec.decimals digits number) }
{
    if digits <= 1 {
        return digits as usize;
    }
    if number % 10 != 0 {
        return digits as usize;
    }
    return decimals_length(digits - 1, number / 10);
}

/// The room behind a decimal number.
fn room_after_fixed(number: Fixed, room: usize) -> Option<usize>
    ensures { IsRoom result room (length (spec.fixed_text number)) }
{
    let raw = number.raw();
    let size = raw.unsigned_abs();
    let whole = itoa::Buffer::new()
        .format((size / 1_000_000_000) as u64)
        .len();
    let decimals = decimals_length(9, (size % 1_000_000_000) as u64);
    let behind_sign = room_after(if raw < 0 { 1 } else { 0 }, room)?;
    let behind_whole = room_after(whole, behind_sign)?;
    let behind_point = room_after(1, behind_whole)?;
    room_after(decimals, behind_point)
}

/// How many bytes show one of a text: a backslash stands in front of a quote and of a backslash.
fn escaped_length(byte: u8) -> usize
    ensures { result ≡ length (spec.escaped byte) }
{
    if byte == b'"' || byte == b'\\' { 2 } else { 1 }
}

/// The room behind a text in quotes.
fn room_after_quoted(text: &[u8], room: usize) -> Option<usize>
    ensures { IsRoom result room (length (spec.quoted text.now)) }
{
    let mut left = room_after(2, room)?;
    for byte in text {
        left = room_after(escaped_length(*byte), left)?;
    }
    Some(left)
}

/// The room behind a value.
#[cycle(room)]
pub fn room_after_value(value: &Value, room: usize) -> Option<usize>
    ensures { IsRoom result room (length (value_text value.now)) }
{
    match value {
        Value::Nothing => room_after(4, room),
        Value::Flag(flag) => room_after(if *flag { 4 } else { 5 }, room),
        Value::Int(number) => room_after(itoa::Buffer::new().format(*number).len(), room),
        Value::Fix(number) => room_after_fixed(*number, room),
        Value::Text(text) => room_after_quoted(text.as_slice(), room),
        Value::Tup(items) => room_after_tuple(items.as_slice(), room),
        Value::Space(at) => room_after_address(at.as_slice(), room_after(8, room)?),
        Value::Cells(at) => room_after_cells(at, room_after(8, room)?),
        Value::Table(name) => room_after(name.len(), room_after(8, room)?),
    }
}

/// The room behind the address of cells, a dot and their name.
#[cycle(room)]
fn room_after_cells(at: &CellsAt, room: usize) -> Option<usize>
    ensures { IsRoom result room (length (spec.cells_text at.now)) }
{
    let behind_dot = room_after(1, room)?;
    let behind_name = room_after(at.name.len(), behind_dot)?;
    room_after_address(at.space.as_slice(), behind_name)
}

/// The room behind values with commas between them.
#[cycle(room)]
fn room_after_commas(items: &[Value], room: usize) -> Option<usize>
    ensures { IsRoom result room (length (commas (map value_text items.now))) }
{
    let mut left = room;
    for (i, item) in items.iter().enumerate() {
        let behind_comma = room_after(gap(i, 2), left)?;
        left = room_after_value(item, behind_comma)?;
    }
    Some(left)
}

/// The room behind a tuple. One of a single item has a comma behind it.
#[cycle(room)]
fn room_after_tuple(items: &[Value], room: usize) -> Option<usize>
    ensures { IsRoom result room (length (spec.tuple_text (map value_text items.now))) }
{
    let around = if items.len() == 1 { 3 } else { 2 };
    let within = room_after(around, room)?;
    room_after_commas(items, within)
}

/// The room behind an address.
#[cycle(room)]
fn room_after_address(at: &[Segment], room: usize) -> Option<usize>
    ensures { IsRoom result room (length (spec.address_text at.now)) }
{
    let mut left = room;
    for (i, segment) in at.iter().enumerate() {
        left = room_after_segment(segment, i, left)?;
    }
    Some(left)
}

/// The room behind the segment at a place of an address. The first one has no dot in front.
#[cycle(room)]
fn room_after_segment(segment: &Segment, place: usize, room: usize) -> Option<usize>
    ensures { let text = segment_text segment.now in
        IsRoom result room (length (if place == 0 then spec.after_dot text else text)) }
{
    match segment {
        Segment::Name(name) => room_after(name.len(), room_after(gap(place, 1), room)?),
        Segment::Item(items) => room_after_commas(items.as_slice(), room_after(2, room)?),
    }
}

/// The room behind a node.
pub fn room_after_node(node: &Node, room: usize) -> Option<usize>
    ensures { IsRoom result room (length (node_text node.now)) }
{
    match node {
        Node::Cell(at, name, arguments) => {
            let behind_signs = room_after(3, room)?;
            let behind_name = room_after(name.len(), behind_signs)?;
            let behind_address = room_after_address(at.as_slice(), behind_name)?;
            room_after_commas(arguments.as_slice(), behind_address)
        }
        Node::Item(at, arguments) => {
            let behind_signs = room_after(2, room)?;
            let behind_address = room_after_address(at.as_slice(), behind_signs)?;
            room_after_commas(arguments.as_slice(), behind_address)
        }
    }
}

/// The room behind the names of a path with dots between them.
fn room_after_path(names: &[Label], room: usize) -> Option<usize>
    ensures { IsRoom result room (length (path_text names.now)) }
{
    let mut left = room;
    for (i, name) in names.iter().enumerate() {
        let behind_dot = room_after(gap(i, 1), left)?;
        left = room_after(name.len(), behind_dot)?;
    }
    Some(left)
}

/// The room behind paths with commas between them.
pub fn room_after_paths(paths: &[Path], room: usize) -> Option<usize>
    ensures { IsRoom result room (length (commas (map path_text paths.now))) }
{
    let mut left = room;
    for (i, path) in paths.iter().enumerate() {
        let behind_comma = room_after(gap(i, 2), left)?;
        left = room_after_path(path.as_slice(), behind_comma)?;
    }
    Some(left)
}
