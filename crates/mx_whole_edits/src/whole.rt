//! Edits, whole but for the walk over the static paths.
ghost use Rattle.std.specs.Prelude.{◌≡◌, None, IfOk, MatchOption};
ghost use Rattle.mx_model.specs.Rings.{IsRing, HasNoRing};
ghost use Rattle.mx_model.specs.Refused.{record_trouble};
ghost use Rattle.mx_model.specs.Change.{change, bound_edit};
ghost use Rattle.mx_model.specs.Inputs.{without_unfit};
ghost use Rattle.mx_model.specs.Valid.{InputsFit};
ghost use Rattle.mx_apply.specs.Chain.{MakesNoRing, CanGoOn};
ghost use Rattle.mx_whole_edits.specs.Whole.{IsAccepted, IsApplied, EditsAreWhole, is_of_input};
ghost use Rattle.mx_model.specs.Literals.{IsRead};
ghost use Rattle.mx_whole_edits.specs.Ready.{IsReady, KeepsReady, ReadyIsValid, ValidIsReady};

use crate::unfit::without_unfit;
use mx_apply::counts::over;
use mx_apply::edits::with_edit;
use mx_edit::edit::Edit;
use mx_edit::refusal::EditRefusal;
use mx_list::list::List;
use mx_model::text::ModelText;
use mx_rings::rings::ring_of;
use mx_value::node::Path;
use std::alloc::{AllocError, Global};

/// The text that an edit makes of another one, without the inputs that then fit no cells, or the first refusal that applies. The
/// walk over the static paths of the new text is still to be made.
pub fn applied(alloc: Global, text: &ModelText, edit: &Edit) -> Result<ModelText, EditRefusal>
    requires next { CanGoOn text.now }
    requires fit { InputsFit text.now }
    ensures exact { IsApplied text.now edit.now result }
    ensures next { IfOk result CanGoOn }
    ensures ready { KeepsReady text.now edit.now result }
{
    match with_edit(alloc, text, edit) {
        Ok(made) => match new_ring(alloc, edit, &made) {
            Ok(None) => return counted(alloc, text, edit, made),
            Ok(Some(ring)) => return Err(EditRefusal::Cycle(ring)),
            Err(_) => return Err(EditRefusal::NoMemory),
        },
        Err(why) => return Err(why),
    }
}

/// A ring that an edit makes in a text that had none. Only new bases can make one.
fn new_ring(alloc: Global, edit: &Edit, made: &ModelText) -> Result<Option<List<Path>>, AllocError>
    ensures { let none = MakesNoRing edit.now made.now in
        IfOk result (λ found. MatchOption found none (IsRing made.now)) }
{
    match edit {
        Edit::SetBases { path: _, bases: _ } => return ring_of(alloc, made),
        _ => return Ok(None),
    }
}

/// The text without the inputs that do not fit it, unless a number passes its greatest.
fn counted(
    alloc: Global,
    text: &ModelText,
    edit: &Edit,
    made: ModelText,
) -> Result<ModelText, EditRefusal>
    requires free { record_trouble text.now edit.now ≡ None }
    requires is { made ≡ change text.now (bound_edit text.now edit.now) }
    requires next { CanGoOn made }
    requires fit { InputsFit text.now }
    ensures exact { IsApplied text.now edit.now result }
    ensures next { IfOk result CanGoOn }
    ensures ready { KeepsReady text.now edit.now result }
{
    match fitting(alloc, text, edit, &made) {
        Ok(kept) => match over(&kept) {
            Some(limit) => return Err(EditRefusal::TooMany(limit)),
            None => {
                keep_ready(text, edit, &kept);
                return Ok(kept);
            }
        },
        Err(_) => return Err(EditRefusal::NoMemory),
    }
}

/// The changed text without the inputs that do not fit it. An edit of an input leaves none of these, and no test is made.
fn fitting(
    alloc: Global,
    text: &ModelText,
    edit: &Edit,
    made: &ModelText,
) -> Result<ModelText, AllocError>
    requires free { record_trouble text.now edit.now ≡ None }
    requires is { made.now ≡ change text.now (bound_edit text.now edit.now) }
    requires next { CanGoOn made.now }
    requires fit { InputsFit text.now }
    ensures { IfOk result (λ t. t ≡ without_unfit made.now) }
{
    if is_of_input(edit) {
        return made.copy(alloc);
    }
    return without_unfit(alloc, made, made);
}

/// Whether an edit is one of an input.
fn is_of_input(edit: &Edit) -> bool
    ensures { result ≡ is_of_input edit.now }
{
    match edit {
        Edit::SetInput {
            space: _,
            name: _,
            args: _,
            value: _,
        } => true,
        Edit::DelInput {
            space: _,
            name: _,
            args: _,
        } => true,
        _ => false,
    }
}

/// From what stands beside both texts, the new one is ready where the old one was. Does nothing when it runs.
fn keep_ready(text: &ModelText, edit: &Edit, made: &ModelText)
    requires accepted { IsAccepted text.now edit.now made.now }
    requires next { CanGoOn made.now }
    ensures { IsReady text.now → IsRead edit.now → IsReady made.now }
{
    let _ = text.kinds();
    let _ = made.kinds();
}

/// With the walk over the static paths this is the whole edit, for proofs. Does nothing when it runs.
pub fn whole_edits()
    ensures { EditsAreWhole }
{}

/// A text that is ready is valid where the walk over its static paths meets nothing, and what is valid is ready, for proofs.
/// Does nothing when it runs.
pub fn ready_laws()
    ensures valid { ReadyIsValid }
    ensures ready { ValidIsReady }
{}
