//! What the defined space of a path has itself.
ghost use Rattle.std.specs.Prelude.{◌≡◌, IfOk, option_copied};
ghost use Rattle.mx_model.specs.Paths.{is_defined, space_at};
ghost use Rattle.mx_model.specs.Refused.{is_holder, has_cells, has_reference, has_params, holds_reference, has_child};

use mx_model::layers::path_below;
use mx_model::space::Space;
use mx_model::text::ModelText;
use mx_value::label::Label;
use mx_value::node::Path;
use std::alloc::{AllocError, Global};

/// Whether the space of a path is defined.
pub fn is_defined(text: &ModelText, path: &Path) -> bool
    ensures { result ≡ is_defined text.now path.now }
{
    text.id_of(path).is_some()
}

/// The defined space of a path.
pub fn space_at<'a>(text: &'a ModelText, path: &Path) -> Option<&'a Space>
    ensures { option_copied result ≡ space_at text.now path.now }
{
    match text.id_of(path) {
        Some(s) => Some(text.space(s)),
        None => None,
    }
}

/// Whether a path is that of a defined space, or the empty one of the model.
pub fn is_holder(text: &ModelText, path: &Path) -> bool
    ensures { result ≡ is_holder text.now path.now }
{
    path.is_empty() || is_defined(text, path)
}

/// Whether the defined space of a path has cells of a name.
pub fn has_cells(text: &ModelText, path: &Path, name: &Label) -> bool
    ensures { result ≡ has_cells name.now (space_at text.now path.now) }
{
    match space_at(text, path) {
        Some(space) => return space.cells(name).is_some(),
        None => return false,
    }
}

/// Whether the defined space of a path has a reference of a name.
pub fn has_reference(text: &ModelText, path: &Path, name: &Label) -> bool
    ensures { result ≡ has_reference name.now (space_at text.now path.now) }
{
    match space_at(text, path) {
        Some(space) => return space.reference(name).is_some(),
        None => return false,
    }
}

/// Whether the defined space of a path has parameters.
pub fn has_params(text: &ModelText, path: &Path) -> bool
    ensures { result ≡ has_params (space_at text.now path.now) }
{
    match space_at(text, path) {
        Some(space) => return space.params().is_some(),
        None => return false,
    }
}

/// Whether a space, or for the empty path the model, has a reference of a name.
pub fn holds_reference(text: &ModelText, path: &Path, name: &Label) -> bool
    ensures { result ≡ holds_reference text.now path.now name.now }
{
    if path.is_empty() {
        return text.global(name).is_some();
    }
    return has_reference(text, path, name);
}

/// Whether a space, or for the empty path the model, has a defined child of a name.
pub fn has_child(
    alloc: Global,
    text: &ModelText,
    path: &Path,
    name: &Label,
) -> Result<bool, AllocError>
    ensures { IfOk result (λ has. has ≡ has_child text.now path.now name.now) }
{
    let child = path_below(alloc, path.as_slice(), name)?;
    Ok(is_defined(text, &child))
}
