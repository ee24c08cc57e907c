//! The test of BadValue: what may not stand in a model text.
ghost use Rattle.std.specs.Prelude.{◌≡◌, ◌+◌, map, length};
ghost use Rattle.std.specs.List.{list_any};
ghost use Rattle.mx_value.specs.Name.{same_path};
ghost use Rattle.mx_print.specs.Texts.{commas};
ghost use Rattle.mx_print.specs.Values.{value_text, node_text};
ghost use Rattle.mx_model.specs.Walk.{path_text};
ghost use Rattle.mx_model.specs.Refused.{is_unfit, is_nothing, is_long, has_double};

use crate::lengths::{room_after_node, room_after_paths, room_after_value};
use mx_value::nesting::nesting_of_value;
use mx_value::node::{Node, Path};
use mx_value::plain::is_plain;
use mx_value::value::Value;

/// The deepest nesting of a value in a model text.
const NESTING: u32 = 64;

/// The most bytes of a text: that of a value, of a list of bases, or of an input.
const TEXT: usize = 60_000;

/// Whether a value is not plain or nested too deep.
pub fn is_unfit(value: &Value) -> bool
    ensures { result ≡ is_unfit value.now }
{
    !is_plain(value) || nesting_of_value(value) > NESTING
}

/// Whether one of the values is not plain or nested too deep.
pub fn is_one_unfit(values: &[Value]) -> bool
    ensures { result ≡ list_any is_unfit values.now }
{
    values.iter().any(|value| is_unfit(value))
}

/// Whether a value is None.
pub fn is_nothing(value: &Value) -> bool
    ensures { result ≡ is_nothing value.now }
{
    match value {
        Value::Nothing => true,
        _ => false,
    }
}

/// Whether one of the paths stands twice.
pub fn has_double(paths: &[Path]) -> bool
    ensures { result ≡ has_double paths.now }
{
    for (i, path) in paths.iter().enumerate() {
        if is_among(paths.split_at(i + 1).1, path) {
            return true;
        }
    }
    false
}

/// Whether a path is one of these.
fn is_among(paths: &[Path], path: &Path) -> bool
    ensures { result ≡ list_any (same_path path.now) paths.now }
{
    for other in paths {
        if *path == *other {
            return true;
        }
    }
    false
}

/// Whether the text of a value is too long.
pub fn is_long_value(value: &Value) -> bool
    ensures { result ≡ is_long (length (value_text value.now)) }
{
    room_after_value(value, TEXT).is_none()
}

/// Whether the texts of a node and of its value are too long together.
pub fn is_long_input(node: &Node, value: &Value) -> bool
    ensures { result ≡ is_long (length (node_text node.now) + length (value_text value.now)) }
{
    match room_after_node(node, TEXT) {
        Some(left) => room_after_value(value, left).is_none(),
        None => true,
    }
}

/// Whether the text of a list of bases is too long.
pub fn is_long_list(bases: &[Path]) -> bool
    ensures { result ≡ is_long (length (commas (map path_text bases.now))) }
{
    room_after_paths(bases, TEXT).is_none()
}
