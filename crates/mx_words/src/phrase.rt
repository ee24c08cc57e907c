//! What stands behind the words of commands that are in small languages of their own.
ghost use Rattle.std.specs.Prelude.{◌≡◌, true, ◌∷◌, IfOk};
ghost use Rattle.mx_grammar.specs.Reading.{Reads, Gives, parsed, accept, line};
ghost use Rattle.mx_edit.specs.declared.edit.Edit.TheVariants as edit;
ghost use Rattle.mx_words.specs.declared.command.Command.TheVariants as command;
ghost use Rattle.mx_words.specs.Heads.{space_of, whole_of};
ghost use Rattle.mx_words.specs.HeadParsers as parsers;
ghost use Rattle.mx_words.specs.Phrases as phrases;
ghost use Rattle.mx_words.specs.PhraseParsers as spec;

use crate::command::Command;
use crate::head::{Target, dotted, line_end, owned, word};
use crate::table::{Named, Owner, Phrase, Reference};
use mx_edit::edit::Edit;
use mx_edit::reference::RefValue;
use mx_edit::scope::Scope;
use mx_grammar::address::addr;
use mx_grammar::cursor::Cursor;
use mx_grammar::trouble::Trouble;
use mx_grammar::word::{Symbol, Word};
use mx_grammar::words::label;
use mx_list::items::Items;
use mx_list::list::List;
use mx_value::label::Label;
use mx_value::node::Path;
use mx_value::value::{Addr, Value};
use std::alloc::{AllocError, Global};

/// The path of the space, or that of `Main` where there is none.
pub fn space_at(alloc: Global, path: Path) -> Result<Path, AllocError>
    ensures { IfOk result (λ p. p ≡ space_of path) }
{
    if path.is_empty() {
        let mut names = Vec::new(alloc);
        names.push(label(alloc, b"Main")?)?;
        return List::from_vec(alloc, names);
    }
    Ok(path)
}

/// The path of all names.
pub fn whole(alloc: Global, target: Target) -> Result<Path, AllocError>
    ensures { IfOk result (λ p. p ≡ whole_of target) }
{
    let Target { path, name } = target;
    let mut names = Vec::new(alloc);
    for label in path.as_slice() {
        names.push(label.copy()?)?;
    }
    names.push(name)?;
    List::from_vec(alloc, names)
}

/// What a word does with the names behind it.
fn named_command(alloc: Global, named: Named, target: Target) -> Result<Command, AllocError>
    ensures { IfOk result (λ c. c ≡ phrases.named_command named target) }
{
    match named {
        Named::NewSpace => {
            let Target { path, name } = target;
            Ok(Command::Edit(Edit::NewSpace { parent: path, name }))
        }
        Named::DelSpace => Ok(Command::Edit(Edit::DelSpace {
            path: whole(alloc, target)?,
        })),
        Named::DelParams => Ok(Command::Edit(Edit::SetParams {
            path: whole(alloc, target)?,
            params: None,
        })),
        Named::Order => Ok(Command::Order(whole(alloc, target)?)),
        Named::DelCells => {
            let Target { path, name } = target;
            Ok(Command::Edit(Edit::DelCells {
                path: space_at(alloc, path)?,
                name,
            }))
        }
        Named::Allow => allowed(alloc, target, true),
        Named::Disallow => allowed(alloc, target, false),
        Named::DelRef => {
            let Target { path, name } = target;
            Ok(Command::Edit(Edit::DelRef {
                path: space_at(alloc, path)?,
                name,
            }))
        }
    }
}

/// Whether cells may give None, as a command.
fn allowed(alloc: Global, target: Target, flag: bool) -> Result<Command, AllocError>
    ensures { IfOk result (λ c.
        c ≡ command.Edit (edit.SetAllowNone (space_of target.path) target.name flag)) }
{
    let Target { path, name } = target;
    Ok(Command::Edit(Edit::SetAllowNone {
        path: space_at(alloc, path)?,
        name,
        flag,
    }))
}

/// The command that takes out the model's reference of a name.
fn no_global(alloc: Global, name: Label) -> Result<Command, AllocError>
    ensures { IfOk result (λ c. c ≡ phrases.no_global name) }
{
    let path = List::from_vec(alloc, Vec::new(alloc))?;
    Ok(Command::Edit(Edit::DelRef { path, name }))
}

fn small(n: i64) -> Option<u32>
    ensures { result ≡ spec.small n }
{
    match u32::try_from(n) {
        Ok(n) => Some(n),
        Err(_) => None,
    }
}

fn limit_in(value: &Value) -> Option<u32>
    ensures { result ≡ spec.limit_in value.now }
{
    match value {
        Value::Int(n) => small(*n),
        Value::Nothing => None,
        Value::Flag(_) => None,
        Value::Fix(_) => None,
        Value::Text(_) => None,
        Value::Tup(_) => None,
        Value::Space(_) => None,
        Value::Cells(_) => None,
        Value::Table(_) => None,
    }
}

/// A number of 32 bits.
fn limit(tokens: &mut Cursor<'_>) -> Result<u32, Trouble>
    ensures { Reads (accept spec.limit_of tokens.old) result tokens.new }
{
    let unexpected = Trouble::Unexpected(tokens.left());
    let value = tokens.simple_literal()?;
    match limit_in(&value) {
        Some(n) => Ok(n),
        None => Err(unexpected),
    }
}

/// A name that is this one.
fn the_name(tokens: &mut Cursor<'_>, name: &[u8]) -> Result<(), Trouble>
    ensures { Reads (spec.the_name name.now tokens.old) result tokens.new }
{
    let unexpected = Trouble::Unexpected(tokens.left());
    let found = tokens.name()?;
    if found.as_slice() == name {
        return Ok(());
    }
    Err(unexpected)
}

#[tactic(auto, unfolding(crate::specs::PhraseParsers::path))]
fn path(alloc: Global, tokens: &mut Cursor<'_>) -> Result<Path, Trouble>
    ensures { Reads (spec.path tokens.old) result tokens.new }
{
    let target = dotted(alloc, tokens)?;
    Ok(whole(alloc, target)?)
}

/// Paths each behind a comma.
fn others(alloc: Global, tokens: &mut Cursor<'_>) -> Result<Items<Path>, Trouble>
    ensures { Reads (spec.others tokens.old) result tokens.new }
{
    let mut found = Items::new(alloc);
    'found: while tokens.eat(Symbol::Comma) {
        found.push(path(alloc, tokens)?)?;
    }
    Ok(found)
}

/// A path in front of others.
fn listed(alloc: Global, first: Path, others: Items<Path>) -> Result<List<Path>, AllocError>
    ensures { IfOk result (λ paths. paths ≡ first ∷ others) }
{
    let mut paths = Vec::new(alloc);
    paths.push(first)?;
    for path in others.into_vec() {
        paths.push(path)?;
    }
    List::from_vec(alloc, paths)
}

#[tactic(auto, unfolding(crate::specs::PhraseParsers::paths))]
fn paths(alloc: Global, tokens: &mut Cursor<'_>) -> Result<List<Path>, Trouble>
    ensures { Reads (spec.paths tokens.old) result tokens.new }
{
    let first = path(alloc, tokens)?;
    let others = others(alloc, tokens)?;
    Ok(listed(alloc, first, others)?)
}

#[tactic(auto, unfolding(crate::specs::PhraseParsers::bases))]
fn bases(alloc: Global, tokens: &mut Cursor<'_>) -> Result<List<Path>, Trouble>
    ensures { Reads (spec.bases tokens.old) result tokens.new }
{
    if tokens.sees(Symbol::Colon) {
        tokens.expect(Symbol::Colon)?;
        return paths(alloc, tokens);
    }
    Ok(List::from_vec(alloc, Vec::new(alloc))?)
}

/// What a target is as a reference's value.
fn fixed_to(alloc: Global, fixed: bool, target: Target) -> Result<RefValue, AllocError>
    ensures { IfOk result (λ value. value ≡ phrases.fixed_to fixed target) }
{
    let path = whole(alloc, target)?;
    Ok(RefValue::Target { path, fixed })
}

/// What a reference refers to, behind the word of its kind.
#[tactic(auto, unfolding(crate::specs::PhraseParsers::reference_by))]
fn reference(
    alloc: Global,
    tokens: &mut Cursor<'_>,
    reference: Reference,
) -> Result<RefValue, Trouble>
    ensures { Reads (spec.reference_by reference tokens.old) result tokens.new }
{
    match reference {
        Reference::Table => {
            the_name(tokens, b"table")?;
            Ok(RefValue::Table(tokens.name()?))
        }
        Reference::To => {
            the_name(tokens, b"to")?;
            let target = dotted(alloc, tokens)?;
            Ok(fixed_to(alloc, false, target)?)
        }
        Reference::Abs => {
            the_name(tokens, b"abs")?;
            let target = dotted(alloc, tokens)?;
            Ok(fixed_to(alloc, true, target)?)
        }
    }
}

/// A reference of a space or of the model as a command.
pub fn set_ref(
    alloc: Global,
    owner: Owner,
    target: Target,
    value: RefValue,
) -> Result<Command, AllocError>
    ensures { IfOk result (λ c. c ≡ phrases.set_ref owner target value) }
{
    let Target { path, name } = target;
    let path = match owner {
        Owner::Space => space_at(alloc, path)?,
        Owner::Model => path,
    };
    Ok(Command::Edit(Edit::SetRef { path, name, value }))
}

/// A reference, `=` and what it refers to.
fn refers(
    alloc: Global,
    tokens: &mut Cursor<'_>,
    owner: Owner,
    kind: Reference,
) -> Result<Command, Trouble>
    ensures { Reads (spec.refers_by owner kind tokens.old) result tokens.new }
{
    let target = owned(alloc, tokens, owner)?;
    tokens.expect(Symbol::Assign)?;
    let value = reference(alloc, tokens, kind)?;
    Ok(set_ref(alloc, owner, target, value)?)
}

/// What stands behind the word of a phrase.
#[tactic(auto, unfolding(crate::specs::PhraseParsers::phrase_by))]
fn behind_word(
    alloc: Global,
    tokens: &mut Cursor<'_>,
    phrase: Phrase,
    levels: usize,
) -> Result<Command, Trouble>
    ensures { Reads (spec.phrase_by phrase levels tokens.old) result tokens.new }
{
    match phrase {
        Phrase::Names(named) => {
            let target = dotted(alloc, tokens)?;
            Ok(named_command(alloc, named, target)?)
        }
        Phrase::DelGlobal => {
            let name = tokens.name()?;
            Ok(no_global(alloc, name)?)
        }
        Phrase::Limit => Ok(Command::Limit(limit(tokens)?)),
        Phrase::ClearAll => {
            the_name(tokens, b"all")?;
            Ok(Command::Clear(Scope::All))
        }
        Phrase::Bases => {
            let path = path(alloc, tokens)?;
            let bases = bases(alloc, tokens)?;
            Ok(Command::Edit(Edit::SetBases { path, bases }))
        }
        Phrase::Refers(owner, kind) => refers(alloc, tokens, owner, kind),
    }
}

/// A command's word, and what stands behind it.
fn worded(
    alloc: Global,
    tokens: &mut Cursor<'_>,
    phrase: Phrase,
    levels: usize,
) -> Result<Command, Trouble>
    ensures { Reads (parsers.worded (spec.phrase_by phrase levels) tokens.old) result tokens.new }
{
    word(tokens)?;
    behind_word(alloc, tokens, phrase, levels)
}

/// The command that the tokens of a phrase say.
pub fn phrase_in(alloc: Global, phrase: Phrase, words: &[Word]) -> Result<Command, Trouble>
    ensures { Gives (parsed (λ n. line (parsers.worded (spec.phrase_by phrase n))) words.now)
        result }
{
    let mut left = Cursor::new(words);
    let command = worded(alloc, &mut left, phrase, words.len() + 1)?;
    line_end(&mut left)?;
    Ok(command)
}

/// The address that the tokens of a command say, behind its word and a name.
#[tactic(auto, unfolding(mx_grammar::specs::Reading::line, mx_grammar::specs::Reading::text))]
pub fn address_in(alloc: Global, name: &[u8], words: &[Word]) -> Result<Addr, Trouble>
    ensures { Gives (parsed (λ n. line (parsers.worded (spec.address_by name.now n))) words.now)
        result }
{
    let mut left = Cursor::new(words);
    let levels = words.len() + 1;
    word(&mut left)?;
    the_name(&mut left, name)?;
    let address = addr(alloc, &mut left, levels + 1)?;
    line_end(&mut left)?;
    Ok(address)
}
