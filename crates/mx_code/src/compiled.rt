//! Formulas and parameter lists with their code beside them.
ghost use Rattle.std.specs.Prelude.{◌≡◌, length, IfOk};
ghost use Rattle.mx_code.specs.Statements.{body_of, code_of, size_of};
ghost use Rattle.mx_code.specs.Told.{told};

use crate::code::Code;
use crate::compile::compile;
use mx_list::shared::Shared;
use mx_syntax::stmt::{Formula, Params, Stmt};
use std::alloc::{AllocError, Global};
use std::marker::Model;

/// A formula with its code, which copies share. Contracts see the formula alone.
#[derive(Drop)]
pub struct Compiled {
    formula: Formula,
    code: Shared<Code>,
}

impl Model for Compiled {
    ghost use Rattle.std.specs.Prelude.{◌≡◌, length};
    ghost use Rattle.std.specs.Coded.{codes};
    ghost use Rattle.mx_value.specs.contracts.value.Value as value;
    ghost use Rattle.mx_syntax.specs.contracts.stmt.Stmt as stmt;
    ghost use Rattle.mx_syntax.specs.declared.stmt.Formula.{Formula};
    ghost use Rattle.mx_code.specs.Statements.{code_of, size_of};
    ghost use Rattle.mx_code.specs.Told.{told};

    ghost Value = { Formula };

    ghost coded = { Prim.hlevel (codes, value.the_row.coded, stmt.the_row.coded) };

    ghost view = { λ c. c.formula };

    ghost invariant = { λ c. (told c.code ≡ code_of c.formula.params c.formula.body) × (c.code.size ≡ size_of c.formula.params c.formula.body) };
}

impl Compiled {
    /// The formula with its code.
    pub fn new(alloc: Global, formula: Formula) -> Result<Compiled, AllocError>
        ensures { IfOk result (λ c. c ≡ formula) }
    {
        let code = compile(alloc, formula.params.as_slice(), formula.body.as_slice())?;
        Ok(Compiled {
            formula,
            code: Shared::new(alloc, code)?,
        })
    }

    /// The formula.
    pub fn formula(&self) -> &Formula
        ensures { result.now ≡ self.now }
    {
        &self.formula
    }

    /// The code of the formula.
    pub fn code(&self) -> &Code
        ensures told { told result.now ≡ code_of self.now.params self.now.body }
        ensures size { result.now.size ≡ size_of self.now.params self.now.body }
    {
        self.code.get()
    }

    /// The code of the formula, shared.
    pub fn share_code(&self) -> Result<Shared<Code>, AllocError>
        ensures { IfOk result
            (λ c. (told c ≡ code_of self.now.params self.now.body)
            × (c.size ≡ size_of self.now.params self.now.body)) }
    {
        self.code.copy()
    }

    /// The same formula and code, shared.
    pub fn copy(&self) -> Result<Compiled, AllocError>
        ensures { IfOk result (λ c. c ≡ self.now) }
    {
        Ok(Compiled {
            formula: Formula {
                params: self.formula.params.copy()?,
                body: self.formula.body.copy()?,
            },
            code: self.code.copy()?,
        })
    }
}

/// The parameters of a space with the code of the formula of its items, which copies share. Contracts
/// see the parameters alone.
#[derive(Drop)]
pub struct CompiledParams {
    params: Params,
    code: Shared<Code>,
}

impl Model for CompiledParams {
    ghost use Rattle.std.specs.Prelude.{◌≡◌, length};
    ghost use Rattle.std.specs.Coded.{codes};
    ghost use Rattle.mx_value.specs.contracts.value.Value as value;
    ghost use Rattle.mx_syntax.specs.contracts.stmt.Stmt as stmt;
    ghost use Rattle.mx_syntax.specs.declared.stmt.Params.{Params};
    ghost use Rattle.mx_code.specs.Statements.{body_of, code_of, size_of};
    ghost use Rattle.mx_code.specs.Told.{told};

    ghost Value = { Params };

    ghost coded = { Prim.hlevel (codes, value.the_row.coded, stmt.the_row.coded) };

    ghost view = { λ c. c.params };

    ghost invariant = { λ c. (told c.code ≡ code_of c.params.params (body_of c.params.body)) × (c.code.size ≡ size_of c.params.params (body_of c.params.body)) };
}

/// The statements of a parameter list.
fn statements(params: &Params) -> &[Stmt]
    ensures { result.now ≡ body_of params.now.body }
{
    match &params.body {
        Some(body) => body.as_slice(),
        None => &[],
    }
}

impl CompiledParams {
    /// The parameters with their code.
    pub fn new(alloc: Global, params: Params) -> Result<CompiledParams, AllocError>
        ensures { IfOk result (λ c. c ≡ params) }
    {
        let code = compile(alloc, params.params.as_slice(), statements(&params))?;
        Ok(CompiledParams {
            params,
            code: Shared::new(alloc, code)?,
        })
    }

    /// The parameters.
    pub fn params(&self) -> &Params
        ensures { result.now ≡ self.now }
    {
        &self.params
    }

    /// The code of the formula of the items.
    pub fn code(&self) -> &Code
        ensures told { told result.now ≡ code_of self.now.params (body_of self.now.body) }
        ensures size { result.now.size ≡ size_of self.now.params (body_of self.now.body) }
    {
        self.code.get()
    }

    /// The code of the formula of the items, shared.
    pub fn share_code(&self) -> Result<Shared<Code>, AllocError>
        ensures { IfOk result
            (λ c. (told c ≡ code_of self.now.params (body_of self.now.body))
            × (c.size ≡ size_of self.now.params (body_of self.now.body))) }
    {
        self.code.copy()
    }

    /// The same parameters and code, shared.
    pub fn copy(&self) -> Result<CompiledParams, AllocError>
        ensures { IfOk result (λ c. c ≡ self.now) }
    {
        let params = self.params.params.copy()?;
        let code = self.code.copy()?;
        match &self.params.body {
            Some(body) => Ok(CompiledParams {
                params: Params {
                    params,
                    body: Some(body.copy()?),
                },
                code,
            }),
            None => Ok(CompiledParams {
                params: Params { params, body: None },
                code,
            }),
        }
    }
}
