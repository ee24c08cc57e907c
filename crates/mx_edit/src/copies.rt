//! Copies of formulas and of parameters, which share all that they are made of.
ghost use Rattle.std.specs.Prelude.{◌≡◌, IfOk};

use mx_syntax::stmt::{Formula, Params};
use std::alloc::AllocError;

/// An equal formula.
pub fn copy_formula(formula: &Formula) -> Result<Formula, AllocError>
    ensures { IfOk result (λ c. c ≡ formula.now) }
{
    Ok(Formula {
        params: formula.params.copy()?,
        body: formula.body.copy()?,
    })
}

/// Equal parameters.
pub fn copy_params(params: &Params) -> Result<Params, AllocError>
    ensures { IfOk result (λ c. c ≡ params.now) }
{
    match &params.body {
        None => Ok(Params {
            params: params.params.copy()?,
            body: None,
        }),
        Some(body) => Ok(Params {
            params: params.params.copy()?,
            body: Some(body.copy()?),
        }),
    }
}
