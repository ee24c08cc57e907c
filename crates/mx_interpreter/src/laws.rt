//! Laws over the definitions. Each is proved as what a function ensures that does nothing.
ghost use Rattle.mx_interpreter.specs.Adding.{AddsKeys, AddsReads};

use mx_edit::equality::equality_laws as laws_of_keys;
use mx_value::equality::equality_laws as laws_of_values;

/// The keys and the reads of a run grow as its records do.
pub fn laws()
    ensures keys { AddsKeys }
    ensures reads { AddsReads }
{
    laws_of_keys();
    laws_of_values();
}
