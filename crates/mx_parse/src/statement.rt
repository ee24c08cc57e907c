//! Statements. The rules take the parser of blocks as a parameter, so that each is proved by itself.

ghost use Rattle.std.specs.Prelude.{◌≡◌, ◌∷◌, [], IfOk};
ghost use Rattle.mx_syntax.specs.declared.stmt.Stmt.{Stmt};
ghost use Rattle.mx_grammar.specs.Reading.{Reads};
ghost use Rattle.mx_parse.specs.StatementParsers as spec;
ghost use Rattle.mx_parse.specs.Insides.{Nests, expression_in, display_in, block_in, body_in};

use crate::display::display;
use mx_expression::expression::expression;
use mx_expression::reading::followed;
use mx_grammar::cursor::Cursor;
use mx_grammar::trouble::Trouble;
use mx_grammar::word::Symbol;
use mx_list::items::Items;
use mx_list::list::List;
use mx_syntax::expr::Expr;
use mx_syntax::stmt::{ArithOp, IfArm, ItemEntry, Stmt};
use mx_value::label::Label;
use std::alloc::{AllocError, Global};

/// What may stand inside of a formula.
#[derive(Clone, Copy)]
pub struct Inside {
    /// How many levels of brackets may open in an expression.
    pub brackets: usize,
    /// Whether a display may be returned.
    pub displays: bool,
}

#[derive(Clone, Copy)]
pub struct Statements<F> {
    pub alloc: Global,
    pub inside: Inside,
    /// How many levels of blocks may still open.
    pub levels: usize,
    pub block: F,
}

/// The statements of a body of one.
pub fn only(alloc: Global, statement: Stmt) -> Result<List<Stmt>, AllocError>
    ensures { IfOk result (λ body. body ≡ statement ∷ []) }
{
    let mut body = Items::new(alloc);
    body.push(statement)?;
    List::from_vec(alloc, body.into_vec())
}

#[tactic(auto, unfolding(crate::specs::Insides::display_by))]
pub fn display_in(
    alloc: Global,
    tokens: &mut Cursor<'_>,
    inside: Inside,
) -> Result<List<ItemEntry>, Trouble>
    ensures { Reads (display_in inside tokens.old) result tokens.new }
{
    if !inside.displays {
        return Err(Trouble::Unexpected(tokens.left()));
    }
    display(alloc, tokens, inside.brackets)
}

#[tactic(auto, unfolding(crate::specs::StatementParsers::change))]
fn change(tokens: &mut Cursor<'_>) -> Result<ArithOp, Trouble>
    ensures { Reads (spec.change tokens.old) result tokens.new }
{
    if tokens.sees(Symbol::PlusAssign) {
        tokens.expect(Symbol::PlusAssign)?;
        return Ok(ArithOp::Add);
    }
    if tokens.sees(Symbol::MinusAssign) {
        tokens.expect(Symbol::MinusAssign)?;
        return Ok(ArithOp::Sub);
    }
    tokens.expect(Symbol::TimesAssign)?;
    Ok(ArithOp::Mul)
}

/// The rest of a line behind `return`.
#[tactic(auto, unfolding(crate::specs::StatementParsers::returned, crate::specs::StatementParsers::given, crate::specs::StatementParsers::valued))]
fn returned(alloc: Global, tokens: &mut Cursor<'_>, inside: Inside) -> Result<Stmt, Trouble>
    ensures { Reads (spec.returned (expression_in inside)
        (display_in inside) tokens.old) result tokens.new }
{
    if tokens.sees(Symbol::Newline) {
        tokens.expect(Symbol::Newline)?;
        return Ok(Stmt::Return(None));
    }
    if tokens.sees(Symbol::OpenCurly) {
        let entries = display_in(alloc, tokens, inside)?;
        tokens.expect(Symbol::Newline)?;
        return Ok(Stmt::ReturnItem(entries));
    }
    let value = expression(alloc, tokens, inside.brackets)?;
    let (value, ()) = followed(value, tokens.expect(Symbol::Newline))?;
    Ok(Stmt::Return(Some(value)))
}

/// The rest of a line behind a name.
#[tactic(auto, unfolding(crate::specs::StatementParsers::changed, crate::specs::StatementParsers::valued))]
fn changed(
    alloc: Global,
    tokens: &mut Cursor<'_>,
    inside: Inside,
    name: Label,
) -> Result<Stmt, Trouble>
    ensures { Reads (spec.changed (expression_in inside) name tokens.old) result tokens.new }
{
    if tokens.sees(Symbol::Assign) {
        tokens.expect(Symbol::Assign)?;
        let value = expression(alloc, tokens, inside.brackets)?;
        let (value, ()) = followed(value, tokens.expect(Symbol::Newline))?;
        return Ok(Stmt::Assign(name, value));
    }
    let op = change(tokens)?;
    let value = expression(alloc, tokens, inside.brackets)?;
    let (value, ()) = followed(value, tokens.expect(Symbol::Newline))?;
    Ok(Stmt::Change(name, op, value))
}

/// A simple statement, to the end of its line.
#[tactic(auto, unfolding(crate::specs::StatementParsers::simple))]
fn simple(alloc: Global, tokens: &mut Cursor<'_>, inside: Inside) -> Result<Stmt, Trouble>
    ensures { Reads (spec.simple (expression_in inside)
        (display_in inside) tokens.old) result tokens.new }
{
    if tokens.sees(Symbol::Pass) {
        tokens.expect(Symbol::Pass)?;
        tokens.expect(Symbol::Newline)?;
        return Ok(Stmt::Pass);
    }
    if tokens.sees(Symbol::Return) {
        tokens.expect(Symbol::Return)?;
        return returned(alloc, tokens, inside);
    }
    let name = tokens.name()?;
    changed(alloc, tokens, inside, name)
}

impl<F: Fn(Global, &mut Cursor<'_>, Inside, usize) -> Result<List<Stmt>, Trouble>> Statements<F> {
    #[tactic(auto, unfolding(crate::specs::StatementParsers::body_by))]
    pub fn body(&self, tokens: &mut Cursor<'_>) -> Result<List<Stmt>, Trouble>
        requires { Nests self.now.inside self.now.levels (F.pre self.now.block)
            (F.post self.now.block) }
        ensures { Reads (body_in self.now.inside self.now.levels tokens.old) result tokens.new }
    {
        if tokens.sees(Symbol::Newline) {
            return (self.block)(self.alloc, tokens, self.inside, self.levels);
        }
        let statement = simple(self.alloc, tokens, self.inside)?;
        Ok(only(self.alloc, statement)?)
    }

    #[tactic(auto, unfolding(crate::specs::StatementParsers::arm, crate::specs::StatementParsers::headed))]
    fn arm(&self, tokens: &mut Cursor<'_>) -> Result<IfArm, Trouble>
        requires { Nests self.now.inside self.now.levels (F.pre self.now.block)
            (F.post self.now.block) }
        ensures { Reads (spec.arm (expression_in self.now.inside)
            (body_in self.now.inside self.now.levels) tokens.old) result tokens.new }
    {
        let test = expression(self.alloc, tokens, self.inside.brackets)?;
        let (test, ()) = followed(test, tokens.expect(Symbol::Colon))?;
        let (test, body) = followed(test, self.body(tokens))?;
        Ok(IfArm { test, body })
    }

    #[tactic(auto, unfolding(crate::specs::StatementParsers::elif))]
    fn elif(&self, tokens: &mut Cursor<'_>) -> Result<IfArm, Trouble>
        requires { Nests self.now.inside self.now.levels (F.pre self.now.block)
            (F.post self.now.block) }
        ensures { Reads (spec.elif (expression_in self.now.inside)
            (body_in self.now.inside self.now.levels) tokens.old) result tokens.new }
    {
        tokens.expect(Symbol::Elif)?;
        self.arm(tokens)
    }

    /// The arms of each `elif`, behind those found before.
    fn elifs(&self, tokens: &mut Cursor<'_>, found: Items<IfArm>) -> Result<Items<IfArm>, Trouble>
        requires { Nests self.now.inside self.now.levels (F.pre self.now.block)
            (F.post self.now.block) }
        ensures { Reads (spec.elifs (expression_in self.now.inside)
            (body_in self.now.inside self.now.levels) found tokens.old) result tokens.new }
    {
        let mut arms = found;
        while tokens.sees(Symbol::Elif) {
            arms.push(self.elif(tokens)?)?;
        }
        Ok(arms)
    }

    /// What is left of an `if` behind its arms.
    #[tactic(auto, unfolding(crate::specs::StatementParsers::otherwise, crate::specs::StatementParsers::headed))]
    fn otherwise(&self, tokens: &mut Cursor<'_>, arms: Items<IfArm>) -> Result<Stmt, Trouble>
        requires { Nests self.now.inside self.now.levels (F.pre self.now.block)
            (F.post self.now.block) }
        ensures { Reads (spec.otherwise
            (body_in self.now.inside self.now.levels) arms tokens.old) result tokens.new }
    {
        let arms = List::from_vec(self.alloc, arms.into_vec())?;
        if tokens.sees(Symbol::Else) {
            tokens.expect(Symbol::Else)?;
            tokens.expect(Symbol::Colon)?;
            let other = Some(self.body(tokens)?);
            return Ok(Stmt::If { arms, other });
        }
        Ok(Stmt::If { arms, other: None })
    }

    #[tactic(auto, unfolding(crate::specs::StatementParsers::branches))]
    fn branches(&self, tokens: &mut Cursor<'_>) -> Result<Stmt, Trouble>
        requires { Nests self.now.inside self.now.levels (F.pre self.now.block)
            (F.post self.now.block) }
        ensures { Reads (spec.branches (expression_in self.now.inside)
            (body_in self.now.inside self.now.levels) tokens.old) result tokens.new }
    {
        tokens.expect(Symbol::If)?;
        let first = self.arm(tokens)?;
        let mut arms = Items::new(self.alloc);
        arms.push(first)?;
        let arms = self.elifs(tokens, arms)?;
        self.otherwise(tokens, arms)
    }

    #[tactic(auto, unfolding(crate::specs::StatementParsers::each, crate::specs::StatementParsers::headed))]
    fn each(&self, tokens: &mut Cursor<'_>) -> Result<Stmt, Trouble>
        requires { Nests self.now.inside self.now.levels (F.pre self.now.block)
            (F.post self.now.block) }
        ensures { Reads (spec.each (expression_in self.now.inside)
            (body_in self.now.inside self.now.levels) tokens.old) result tokens.new }
    {
        tokens.expect(Symbol::For)?;
        let name = tokens.name()?;
        tokens.expect(Symbol::In)?;
        let over = expression(self.alloc, tokens, self.inside.brackets)?;
        let (over, ()) = followed(over, tokens.expect(Symbol::Colon))?;
        let (over, body) = followed(over, self.body(tokens))?;
        Ok(Stmt::For { name, over, body })
    }

    #[tactic(auto, unfolding(crate::specs::StatementParsers::statement))]
    fn statement(&self, tokens: &mut Cursor<'_>) -> Result<Stmt, Trouble>
        requires { Nests self.now.inside self.now.levels (F.pre self.now.block)
            (F.post self.now.block) }
        ensures { Reads (spec.statement (expression_in self.now.inside)
            (display_in self.now.inside)
            (body_in self.now.inside self.now.levels) tokens.old) result tokens.new }
    {
        if tokens.sees(Symbol::If) {
            return self.branches(tokens);
        }
        if tokens.sees(Symbol::For) {
            return self.each(tokens);
        }
        simple(self.alloc, tokens, self.inside)
    }

    /// The statements of a block, to its end.
    fn statements(&self, tokens: &mut Cursor<'_>) -> Result<Items<Stmt>, Trouble>
        requires { Nests self.now.inside self.now.levels (F.pre self.now.block)
            (F.post self.now.block) }
        ensures { Reads (spec.statements (expression_in self.now.inside)
            (display_in self.now.inside)
            (body_in self.now.inside self.now.levels) [] tokens.old) result tokens.new }
    {
        let mut found = Items::new(self.alloc);
        loop {
            found.push(self.statement(tokens)?)?;
            if tokens.sees(Symbol::Dedent) {
                tokens.expect(Symbol::Dedent)?;
                return Ok(found);
            }
        }
    }

    #[tactic(auto, unfolding(crate::specs::StatementParsers::block_rule))]
    pub fn rule(&self, tokens: &mut Cursor<'_>) -> Result<List<Stmt>, Trouble>
        requires { Nests self.now.inside self.now.levels (F.pre self.now.block)
            (F.post self.now.block) }
        ensures { Reads (spec.block_rule (expression_in self.now.inside)
            (display_in self.now.inside)
            (block_in self.now.inside self.now.levels) tokens.old) result tokens.new }
    {
        tokens.expect(Symbol::Newline)?;
        tokens.expect(Symbol::Indent)?;
        let statements = self.statements(tokens)?;
        Ok(List::from_vec(self.alloc, statements.into_vec())?)
    }
}
