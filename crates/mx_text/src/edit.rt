//! Why an edit was refused.
ghost use Rattle.std.specs.Prelude.{◌≡◌, ◌≢◌, ◌++◌, codes, OnOk, IfOk};
ghost use Rattle.mx_text.specs.Edit as spec;

use mx_edit::refusal::{EditRefusal, Limit};
use mx_print::append::push;
use mx_value::label::Label;
use std::alloc::{AllocError, Global};

fn limit_text(limit: Limit) -> &'static [u8]
    ensures { result.now ≡ spec.limit_text limit }
{
    match limit {
        Limit::Spaces => b"Spaces",
        Limit::Cells => b"Cells",
        Limit::Refs => b"Refs",
        Limit::Tables => b"Tables",
        Limit::Inputs => b"Inputs",
        Limit::Depth => b"Depth",
        Limit::Layers => b"Layers",
        Limit::Paths => b"Paths",
    }
}

/// Adds a path: its names with dots between them.
pub fn push_path(out: &mut Vec<u8>, names: &[Label]) -> Result<(), AllocError>
    ensures { OnOk result (out.new.items ≡ out.old.items ++ spec.path_text names.now) }
{
    for (i, name) in names.iter().enumerate() {
        if i > 0 {
            push(out, b".")?;
        }
        push(out, name.as_slice())?;
    }
    Ok(())
}

/// Adds why an edit was refused: the name of the refusal, and behind it the path or the limit that it names. Want of memory
/// is handed on: it has no text.
pub fn push_edit_refusal(out: &mut Vec<u8>, refusal: &EditRefusal) -> Result<(), AllocError>
    ensures text { OnOk result
        (out.new.items ≡ out.old.items ++ spec.edit_refusal_text refusal.now) }
    ensures memory { OnOk result (refusal.now ≢ EditRefusal.NoMemory) }
{
    match refusal {
        EditRefusal::BadName => push(out, b"BadName"),
        EditRefusal::NoSuchSpace => push(out, b"NoSuchSpace"),
        EditRefusal::NoSuchMember => push(out, b"NoSuchMember"),
        EditRefusal::NameTaken => push(out, b"NameTaken"),
        EditRefusal::WrongCount => push(out, b"WrongCount"),
        EditRefusal::ItemAddress => push(out, b"ItemAddress"),
        EditRefusal::BadValue => push(out, b"BadValue"),
        EditRefusal::InUse(path) => {
            push(out, b"InUse ")?;
            push_path(out, path.as_slice())
        }
        EditRefusal::Cycle(_) => push(out, b"Cycle"),
        EditRefusal::TooMany(limit) => {
            push(out, b"TooMany ")?;
            push(out, limit_text(*limit))
        }
        EditRefusal::NoOrder(path) => {
            push(out, b"NoOrder ")?;
            push_path(out, path.as_slice())
        }
        EditRefusal::NoMemory => Err(AllocError),
    }
}

/// The text of why an edit was refused.
pub fn text_of_edit(alloc: Global, refusal: &EditRefusal) -> Result<Vec<u8>, AllocError>
    requires { refusal.now ≢ EditRefusal.NoMemory }
    ensures { IfOk result (λ text. text.items ≡ spec.edit_refusal_text refusal.now) }
{
    let mut text = Vec::new(alloc);
    push_edit_refusal(&mut text, refusal)?;
    Ok(text)
}
