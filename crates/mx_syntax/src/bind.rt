//! The binding of arguments to parameters.
ghost use Rattle.std.specs.Prelude.{◌≡◌, ◌++◌, ◌↔◌, ◌∷◌, [], drop, length, IfOk, OnOk, IsTrue, IsErrOf};
ghost use Rattle.mx_syntax.specs.Binding.{bound, defaults, is_wrong_count, lack_default};
ghost use Rattle.mx_syntax.specs.declared.bind.BindRefusal.TheVariants.{NoMemory};

use crate::stmt::Param;
use mx_list::items::Items;
use mx_value::normal::normal;
use mx_value::value::Value;
use std::alloc::{AllocError, Global};

/// Why arguments do not bind.
#[derive(Clone, Copy, Debug, PartialEq, Eq, Drop)]
pub enum BindRefusal {
    /// There are more arguments than parameters, or a parameter without an argument has no default.
    WrongCount,
    /// There was no memory for the defaults.
    NoMemory,
}

impl From<AllocError> for BindRefusal {
    ghost from_gives = { λ _ refusal. refusal ≡ NoMemory };

    fn from(_error: AllocError) -> BindRefusal {
        BindRefusal::NoMemory
    }
}

/// The full arguments: those given, then the defaults of the other parameters, each in normal form.
/// WrongCount comes exactly where there are more arguments than parameters, or where a parameter
/// without an argument has no default.
pub fn bind(
    alloc: Global,
    params: &[Param],
    args: Items<Value>,
) -> Result<Items<Value>, BindRefusal>
    ensures full { IfOk result (λ full. full ≡ bound params.now args) }
    ensures wrong_count { IsErrOf result BindRefusal.WrongCount ↔ IsTrue
        (is_wrong_count params.now (length args)) }
{
    let count = args.len();
    if is_wrong_count(params, count) {
        return Err(BindRefusal::WrongCount);
    }
    match with_defaults(alloc, args, params.split_at(count).1) {
        Ok(full) => return Ok(normal(full)),
        Err(_) => return Err(BindRefusal::NoMemory),
    }
}

/// Whether so many arguments are more than the parameters, or a parameter behind them has no default.
fn is_wrong_count(params: &[Param], count: usize) -> bool
    ensures { result ≡ is_wrong_count params.now count }
{
    if params.len() < count {
        return true;
    }
    return lack_default(params.split_at(count).1);
}

/// Whether one of the parameters has no default.
fn lack_default(params: &[Param]) -> bool
    ensures { result ≡ lack_default params.now }
{
    params.iter().any(|param| param.default.is_none())
}

/// The arguments with the defaults of these parameters behind them.
fn with_defaults(
    alloc: Global,
    args: Items<Value>,
    params: &[Param],
) -> Result<Items<Value>, AllocError>
    ensures { IfOk result (λ full. full ≡ args ++ defaults params.now) }
{
    let mut full = args;
    for param in params {
        add_default(alloc, &mut full, param)?;
    }
    Ok(full)
}

/// Adds the default of the parameter, where it has one.
fn add_default(alloc: Global, full: &mut Items<Value>, param: &Param) -> Result<(), AllocError>
    ensures { OnOk result (full.new ≡ full.old ++ defaults (param.now ∷ [])) }
{
    match &param.default {
        Some(value) => {
            let default = value.copy(alloc)?;
            full.push(default)
        }
        None => Ok(()),
    }
}
