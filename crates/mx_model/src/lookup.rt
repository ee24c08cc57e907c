//! Look-ups over layers.
ghost use Rattle.std.specs.Prelude.{◌≡◌, length, option_copied};
ghost use Rattle.mx_c3.specs.InOrder.{AllBelow};
ghost use Rattle.mx_model.specs.Records.{SpaceRecord};
ghost use Rattle.mx_model.specs.Binding.{own_member, first_with};
ghost use Rattle.mx_model.specs.Lookup.{IsBinding, bound_as};

use crate::kind::Kind;
use crate::text::ModelText;
use mx_c3::lists::Order;
use mx_c3::space::SpaceId;
use mx_code::compiled::CompiledParams;
use mx_list::hashed::Hashed;
use mx_value::label::Label;

/// What layers bind a name to.
#[derive(Clone, Copy, PartialEq, Eq, Debug)]
pub enum Binding {
    /// Cells of this layer.
    CellsHere { owner: SpaceId },
    /// A child.
    Child,
    /// A reference of this layer.
    Ref { owner: SpaceId },
    /// None of the layers has the name.
    Missing,
}

/// What the first of these layers that has a name has of it. The name is hashed once.
pub fn lookup(text: &ModelText, layers: &Order, name: &Label) -> Binding
    requires { AllBelow (length text.now.spaces) layers.now }
    ensures { let member = first_with text.now (own_member text.now name.now) layers.now in
        IsBinding text.now name.now result member }
{
    lookup_by(text, layers, &Hashed::new(name))
}

/// The same for a name whose hash is known.
pub fn lookup_by(text: &ModelText, layers: &Order, name: &Hashed<&Label>) -> Binding
    requires { AllBelow (length text.now.spaces) layers.now }
    ensures { let member = first_with text.now (own_member text.now name.now.now) layers.now in
        IsBinding text.now name.now.now result member }
{
    for s in layers.as_slice() {
        match text.kind_by(*s, name) {
            Some(kind) => return bound_as(kind, *s),
            None => {}
        }
    }
    Binding::Missing
}

/// The parameters of the first of these layers that has any.
pub fn first_params<'a>(text: &'a ModelText, layers: &Order) -> Option<&'a CompiledParams>
    requires { AllBelow (length text.now.spaces) layers.now }
    ensures { let own = λ (s : SpaceRecord). s.params in
        option_copied result ≡ first_with text.now own layers.now }
{
    for s in layers.as_slice() {
        if let Some(params) = text.compiled_params(*s) {
            return Some(params);
        }
    }
    None
}

/// The binding to what a layer has of this kind.
fn bound_as(kind: Kind, owner: SpaceId) -> Binding
    ensures { result ≡ bound_as kind owner }
{
    match kind {
        Kind::Cells => Binding::CellsHere { owner },
        Kind::Reference => Binding::Ref { owner },
        Kind::Child => Binding::Child,
    }
}
