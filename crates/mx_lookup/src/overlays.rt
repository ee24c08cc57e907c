//! Names that items add to a namespace.
ghost use Rattle.std.specs.Prelude.{◌≡◌, ◌<◌, ◌++◌, ◌∷◌, [], length, slice_set, IfNone, IfOk, IfSome, OnOk};
ghost use Rattle.mx_value.specs.declared.value.Value.{Value as Values};
ghost use Rattle.mx_meaning.specs.Namespaces as spec;

use mx_list::items::Items;
use mx_list::list::List;
use mx_value::equality::equality_laws;
use mx_value::label::Label;
use mx_value::namespace::Overlay;
use mx_value::value::Value;
use std::alloc::{AllocError, Global};

/// The overlay with all of these, the later ones in the place of earlier ones of the same name.
pub fn overlay_with(
    alloc: Global,
    under: &Overlay,
    more: &Items<(Label, Value)>,
) -> Result<Overlay, AllocError>
    ensures { IfOk result (λ o. o ≡ spec.overlaid_by under.now more.now) }
{
    if more.is_empty() {
        return under.copy();
    }
    let mut all = copy_overlay(alloc, under.as_slice(), more.len())?;
    for (name, value) in more.as_slice() {
        overlay(&mut all, name.copy()?, value.copy(alloc)?)?;
    }
    List::from_vec(alloc, all)
}

/// Equal names and values, in a vector with room for so many more.
fn copy_overlay(
    alloc: Global,
    under: &[(Label, Value)],
    more: usize,
) -> Result<Vec<(Label, Value)>, AllocError>
    ensures { IfOk result (λ v. v.items ≡ under.now) }
{
    let mut copy = Vec::with_capacity(alloc, under.len().saturating_add(more))?;
    for (name, value) in under {
        copy.push((name.copy()?, value.copy(alloc)?))?;
    }
    Ok(copy)
}

/// Sets the value of a name: in the place of an earlier one of the name, or else last.
fn overlay(all: &mut Vec<(Label, Value)>, name: Label, value: Value) -> Result<(), AllocError>
    ensures { OnOk result (all.new.items ≡ spec.overlaid all.old.items name value) }
{
    match place_of(all.as_slice(), &name) {
        Some(at) => {
            all[at] = (name, value);
            return Ok(());
        }
        None => {
            all.push((name, value))?;
            return Ok(());
        }
    }
}

/// The place of a name in an overlay.
fn place_of(overlay: &[(Label, Value)], name: &Label) -> Option<usize>
    ensures within { IfSome result (λ at. at < length overlay.now) }
    ensures found { IfSome result
        (λ at. (v : Values) →
        spec.overlaid overlay.now name.now v ≡ slice_set overlay.now at (name.now, v)) }
    ensures new { IfNone result
        ((v : Values) → spec.overlaid overlay.now name.now v ≡ overlay.now ++ (name.now, v) ∷ []) }
{
    equality_laws();
    for (at, (other, _)) in overlay.iter().enumerate() {
        if *other == *name {
            return Some(at);
        }
    }
    None
}
