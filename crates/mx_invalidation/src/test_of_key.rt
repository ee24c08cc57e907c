//! Which keys an edit changes.
ghost use Rattle.std.specs.Prelude.{◌≡◌, Bool};
ghost use Rattle.mx_edit.specs.declared.key.Key.{Key as Looked};
ghost use Rattle.mx_vertices.specs.Inputs.{AreChanged};

use mx_edit::key::Key;
use mx_value::node::SharedNode;

/// Tells which keys are changed, as two model texts do where the results of a key differ.
pub trait KeyTest {
    /// Whether a key is changed.
    ghost changed: { Self → Looked → Bool };

    /// Whether a key is changed. Takes no memory.
    fn is_changed(&self, key: &Key) -> bool
        ensures { result ≡ changed self.now key.now };

    /// The nodes whose inputs are changed. Takes no memory.
    fn changed_inputs(&self) -> &[SharedNode]
        ensures { AreChanged (changed self.now) result.now };
}
