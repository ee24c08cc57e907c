//! Members with one of them defined.
ghost use Rattle.std.specs.Prelude.{◌≡◌, IfOk};
ghost use Rattle.mx_model.specs.Change.{define};

use mx_members::members::Members;
use mx_members::share::Share;
use std::alloc::{AllocError, Global};
use std::hash::Hash;

/// The members with a member of a key.
pub fn with_own<K: Eq + Hash + Share, X: Share>(
    alloc: Global,
    members: &Members<K, X>,
    key: K,
    member: X,
) -> Result<Members<K, X>, AllocError>
    ensures { IfOk result (λ m. m ≡ define K.eq members.now key member) }
{
    let mut defined = members.copy(alloc)?;
    defined.define(key, member)?;
    Ok(defined)
}

/// The members with a member of a copy of a key.
pub fn with_made<K: Eq + Hash + Share, X: Share>(
    alloc: Global,
    members: &Members<K, X>,
    key: &K,
    member: X,
) -> Result<Members<K, X>, AllocError>
    ensures { IfOk result (λ m. m ≡ define K.eq members.now key.now member) }
{
    let key = key.share(alloc)?;
    with_own(alloc, members, key, member)
}

/// The members with a copy of a member, of a copy of a key.
pub fn with_copy<K: Eq + Hash + Share, X: Share>(
    alloc: Global,
    members: &Members<K, X>,
    key: &K,
    member: &X,
) -> Result<Members<K, X>, AllocError>
    ensures { IfOk result (λ m. m ≡ define K.eq members.now key.now member.now) }
{
    let member = member.share(alloc)?;
    with_made(alloc, members, key, member)
}
