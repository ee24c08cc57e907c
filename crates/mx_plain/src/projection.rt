//! What a projection gives, and why there is none.
ghost use Rattle.std.specs.Prelude.{◌≡◌, ◌↔◌, map, IfOk, IsErrOf, IsTrue, Ok, Err};
ghost use Rattle.std.specs.List.{Contains};
ghost use Rattle.mx_plain.specs.declared.projection.PlainRefusal.TheVariants.{BadPolicy, NoMemory};
ghost use Rattle.mx_plain.specs.Outcome.{FaultIsOfStep, IsBad, NumberStands, Tells};

use crate::number::Number;
use mx_list::items::Items;
use mx_value::fixed::{Fixed, NumFault};
use std::alloc::{AllocError, AllocFailed, Global};

/// The numbers of a projection, a row for each month from 0 on, and their present values at month 0.
#[derive(Drop)]
pub struct Projection {
    pub rows: Items<Items<Fixed>>,
    pub pv: Items<Fixed>,
}

/// Why a policy has no projection.
#[derive(Clone, Copy, Debug, PartialEq, Eq, Drop)]
pub enum PlainRefusal {
    /// The term is not from 1 to 80 years, or there is not one rate for each year from 0 to the term.
    BadPolicy,
    /// A step that a row or a present value needs has this fault.
    Num(NumFault),
    /// There was not enough memory.
    NoMemory,
}

impl From<AllocError> for PlainRefusal {
    ghost from_gives = { λ _ refusal. refusal ≡ NoMemory };

    fn from(_error: AllocError) -> PlainRefusal {
        PlainRefusal::NoMemory
    }
}

impl<T: Drop> From<AllocFailed<T>> for PlainRefusal {
    ghost from_gives = { λ _ refusal. refusal ≡ NoMemory };

    fn from(_error: AllocFailed<T>) -> PlainRefusal {
        PlainRefusal::NoMemory
    }
}

/// Whether a policy of these numbers is none.
pub fn is_bad(policy_term: u32, mort: &[Fixed], disc: &[Fixed]) -> bool
    ensures { IsTrue result ↔ IsBad policy_term mort.now disc.now }
{
    if policy_term < 1 || policy_term > 80 {
        return true;
    }
    let years = policy_term as usize + 1;
    return mort.len() != years || disc.len() != years;
}

/// The numbers themselves, or the first fault among them.
pub fn settled(alloc: Global, numbers: &[Number]) -> Result<Items<Fixed>, PlainRefusal>
    ensures numbers { IfOk result (λ settled. numbers.now ≡ map Ok settled) }
    ensures fault { Tells result (λ fault. Contains numbers.now (Err fault)) }
    ensures policy { ¬ (IsErrOf result BadPolicy) }
{
    let mut settled = Items::new(alloc);
    for number in numbers {
        match number {
            Ok(x) => settled.push(*x)?,
            Err(fault) => return Err(PlainRefusal::Num(*fault)),
        }
    }
    return Ok(settled);
}

/// What holds of any figure: it has a number, or the fault of a step whose operands all have numbers; and where it has a
/// number, no step that it needs has a fault.
pub fn laws()
    ensures fault { FaultIsOfStep }
    ensures number { NumberStands }
{}
