//! Labels: names and texts.
ghost use Rattle.std.specs.Prelude.{◌≡◌, ◌==◌, ◌↔◌, [], All, length, IfOk, IsErrOf, IsOkUnless, MatchOption, IsTrue};
ghost use Rattle.std.specs.Cmp.Lexicographic.{pointwise};
ghost use Rattle.mx_value.specs.Label.{IsPrintable, first_unprintable, is_printable};
ghost use Rattle.mx_value.specs.declared.label.LabelRefusal.TheVariants.{NoMemory};

use std::alloc::{AllocError, AllocFailed, Global};
use std::hash::{Hash, Hasher};
use std::marker::Model;
use std::rc::Rc;

/// A name or a text: printable ASCII bytes, 32 to 126, whose copies share them. Contracts see the
/// list of the bytes.
#[derive(Drop)]
pub struct Label {
    bytes: Rc<Vec<u8>>,
}

impl Model for Label {
    ghost use Rattle.std.specs.Prelude.{ℕ, List, All};
    ghost use Rattle.mx_value.specs.Label.{IsPrintable};

    ghost Value = { List ℕ };

    ghost view = { λ s. s.bytes.value.items };

    ghost invariant = { λ s. All IsPrintable s.bytes.value.items };
}

/// Why bytes make no label.
#[derive(Clone, Copy, Debug, PartialEq, Eq, Drop)]
pub enum LabelRefusal {
    /// The byte at this place, counted from 0, is the first one outside 32 to 126.
    NotPrintable(usize),
    /// There was no memory for the label.
    NoMemory,
}

impl From<AllocError> for LabelRefusal {
    ghost from_gives = { λ _ refusal. refusal ≡ NoMemory };

    fn from(_error: AllocError) -> LabelRefusal {
        LabelRefusal::NoMemory
    }
}

impl<T: Drop> From<AllocFailed<T>> for LabelRefusal {
    ghost from_gives = { λ _ refusal. refusal ≡ NoMemory };

    fn from(_error: AllocFailed<T>) -> LabelRefusal {
        LabelRefusal::NoMemory
    }
}

impl PartialEq for Label {
    ghost use Rattle.std.specs.Cmp.Lexicographic.{pointwise, lists_per};
    ghost use Rattle.std.specs.Prelude.{◌==◌};
    ghost use Rattle.std.proofs.Common.{rules};
    ghost use Rattle.std.specs.Cmp.Rules.{comparing};

    ghost eq = { pointwise ◌==◌ };

    ghost laws = { Prim.search (comparing, rules) };

    fn eq(&self, other: &Self) -> bool {
        same_bytes(self.bytes.as_slice(), other.bytes.as_slice())
    }
}

/// Whether bytes are the same. They are compared one by one, since names are short.
fn same_bytes(a: &[u8], b: &[u8]) -> bool
    ensures { result ≡ pointwise ◌==◌ a.now b.now }
{
    if a.len() != b.len() {
        return false;
    }
    for at in 0..a.len() {
        if a[at] != b[at] {
            return false;
        }
    }
    true
}

impl Eq for Label {
    ghost use Rattle.std.proofs.Common.{rules};
    ghost use Rattle.std.specs.Cmp.Rules.{comparing};

    ghost laws = { Prim.search (comparing, rules) };
}

/// All bytes are fed at once: names are looked up at each call of a formula.
impl Hash for Label {
    ghost use Rattle.std.specs.Prelude.{◌∷◌, []};
    ghost use Rattle.std.specs.Cmp.Rules.{hashing};
    ghost use Rattle.std.proofs.Common.{rules};

    ghost hash_input = { λ label. label ∷ [] };

    ghost respects_eq = { Prim.search (hashing, rules) };

    fn hash<H: Hasher>(&self, state: &mut H) {
        state.write(self.bytes.as_slice());
    }
}

impl Label {
    /// The label of these bytes.
    pub fn new(alloc: Global, bytes: &[u8]) -> Result<Label, LabelRefusal>
        ensures ok { IfOk result (λ label. label ≡ bytes.now) }
        ensures exact { MatchOption (first_unprintable bytes.now) (IsOkUnless result LabelRefusal.NoMemory)
            (λ place. IsErrOf result (LabelRefusal.NotPrintable place)) }
    {
        match first_unprintable(bytes) {
            Some(place) => Err(LabelRefusal::NotPrintable(place)),
            None => Ok(Label {
                bytes: Rc::new(alloc, bytes.to_vec(alloc)?)?,
            }),
        }
    }

    /// The bytes.
    pub fn as_slice(&self) -> &[u8]
        ensures value { result.now ≡ self.now }
        ensures printable { All IsPrintable self.now }
    {
        self.bytes.as_slice()
    }

    /// How many bytes there are.
    pub fn len(&self) -> usize
        ensures { result ≡ length self.now }
    {
        self.bytes.len()
    }

    /// Whether there is no byte: the empty text.
    pub fn is_empty(&self) -> bool
        ensures { IsTrue result ↔ (self.now ≡ []) }
    {
        self.bytes.is_empty()
    }

    /// The same label, sharing the bytes. Refused only where the count of copies is at its end.
    pub fn copy(&self) -> Result<Label, AllocError>
        ensures { IfOk result (λ c. c ≡ self.now) }
    {
        Ok(Label {
            bytes: self.bytes.clone()?,
        })
    }

    /// Whether the bytes are the same.
    pub fn same(&self, other: &Label) -> bool
        ensures { IsTrue result ↔ self.now ≡ other.now }
    {
        self.bytes.as_slice() == other.bytes.as_slice()
    }
}

/// Whether a label may have the byte: 32 to 126.
pub fn is_printable(byte: u8) -> bool
    ensures { result ≡ is_printable byte }
{
    32 <= byte && byte <= 126
}

/// The place of the first byte, counted from 0, that a label may not have.
fn first_unprintable(bytes: &[u8]) -> Option<usize>
    ensures { result ≡ first_unprintable bytes.now }
{
    bytes.iter().position(|byte| !is_printable(*byte))
}
