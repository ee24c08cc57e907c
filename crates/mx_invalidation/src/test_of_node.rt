//! Which held nodes a clearing is about.
ghost use Rattle.std.specs.Prelude.{◌≡◌, Bool};
ghost use Rattle.mx_vertices.specs.declared.slot.Body.{Body as Kept};

use mx_vertices::slot::Body;

/// Tells which held nodes are to go, with all that reach them.
pub trait NodeTest {
    /// Whether a held node is to go.
    ghost goes: { Self → Kept → Bool };

    /// Whether a held node is to go. Takes no memory.
    fn is_to_go(&self, body: &Body) -> bool
        ensures { result ≡ goes self.now body.now };
}

/// Every held node.
#[derive(Drop)]
pub struct Every;

impl NodeTest for Every {
    ghost use Rattle.std.specs.Prelude.{true};

    ghost goes = { λ _ _. true };

    fn is_to_go(&self, _body: &Body) -> bool {
        true
    }
}
