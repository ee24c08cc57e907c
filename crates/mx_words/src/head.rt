//! The heads of commands that name cells, references or tables: names with points between, of which the last is that of the
//! cells, or one name.
ghost use Rattle.std.specs.Prelude.{◌≡◌, ℕ, List as Names, IfOk};
ghost use Rattle.mx_grammar.specs.Reading.{Reads, Gives, parsed, line};
ghost use Rattle.mx_words.specs.Heads.{target_of};
ghost use Rattle.mx_words.specs.HeadParsers as spec;
ghost use Rattle.mx_words.specs.HeadParsers.{names_further};

use crate::table::Owner;
use mx_grammar::cursor::Cursor;
use mx_grammar::trouble::Trouble;
use mx_grammar::word::{Symbol, Word};
use mx_list::items::Items;
use mx_list::list::List;
use mx_value::label::Label;
use mx_value::node::Path;
use std::alloc::{AllocError, Global};

/// The cells that a command names, and the path before their name, which is empty where there is none.
#[derive(Drop)]
pub struct Target {
    pub path: Path,
    pub name: Label,
}

/// What a head has behind its word.
#[derive(Clone, Copy)]
pub enum HeadForm {
    /// Names with points between; an opening parenthesis stands behind the head.
    Names,
    /// The same, with an opening parenthesis that has to be in the head.
    Opened,
    /// One name; what stands behind the head is no part of it.
    Name,
    /// The name of a reference, and `=`.
    Reference(Owner),
}

/// Names each behind a point.
fn further(alloc: Global, tokens: &mut Cursor<'_>) -> Result<Items<Label>, Trouble>
    ensures { Reads (names_further tokens.old) result tokens.new }
{
    let mut found = Items::new(alloc);
    while tokens.eat(Symbol::Dot) {
        found.push(tokens.name()?)?;
    }
    Ok(found)
}

fn split(alloc: Global, name: Label, further: Items<Label>) -> Result<Target, AllocError>
    ensures { IfOk result (λ t. t ≡ target_of name further) }
{
    let mut path = Vec::new(alloc);
    let mut name = name;
    for next in further.into_vec() {
        path.push(name)?;
        name = next;
    }
    Ok(Target {
        path: List::from_vec(alloc, path)?,
        name,
    })
}

/// Names with points between.
#[tactic(auto, unfolding(crate::specs::HeadParsers::target))]
pub fn dotted(alloc: Global, tokens: &mut Cursor<'_>) -> Result<Target, Trouble>
    ensures { Reads (spec.target tokens.old) result tokens.new }
{
    let name = tokens.name()?;
    let further = further(alloc, tokens)?;
    Ok(split(alloc, name, further)?)
}

/// A command's word.
#[tactic(auto, unfolding(crate::specs::HeadParsers::word))]
pub fn word(tokens: &mut Cursor<'_>) -> Result<(), Trouble>
    ensures { Reads (spec.word tokens.old) result tokens.new }
{
    if tokens.sees(Symbol::Unused) {
        tokens.expect(Symbol::Unused)?;
        return Ok(());
    }
    tokens.name()?;
    Ok(())
}

/// The name of a reference, with the path of its space where it is no model's.
pub fn owned(alloc: Global, tokens: &mut Cursor<'_>, owner: Owner) -> Result<Target, Trouble>
    ensures { Reads (spec.owned owner tokens.old) result tokens.new }
{
    match owner {
        Owner::Space => dotted(alloc, tokens),
        Owner::Model => {
            let name = tokens.name()?;
            Ok(split(alloc, name, Items::new(alloc))?)
        }
    }
}

/// What stands behind the word of a head.
fn named(alloc: Global, tokens: &mut Cursor<'_>, form: HeadForm) -> Result<Target, Trouble>
    ensures { Reads (spec.named_by form tokens.old) result tokens.new }
{
    match form {
        HeadForm::Names => dotted(alloc, tokens),
        HeadForm::Opened => {
            let target = dotted(alloc, tokens)?;
            tokens.expect(Symbol::OpenRound)?;
            Ok(target)
        }
        HeadForm::Name => owned(alloc, tokens, Owner::Model),
        HeadForm::Reference(owner) => {
            let target = owned(alloc, tokens, owner)?;
            tokens.expect(Symbol::Assign)?;
            Ok(target)
        }
    }
}

/// NEWLINE and END, with nothing behind them.
pub fn line_end(tokens: &mut Cursor<'_>) -> Result<(), Trouble>
    ensures { Gives (spec.line_end tokens.old) result }
{
    tokens.expect(Symbol::Newline)?;
    tokens.expect(Symbol::End)?;
    if tokens.left() > 0 {
        return Err(Trouble::Unexpected(tokens.left()));
    }
    Ok(())
}

/// What the tokens of a head name.
#[tactic(auto, unfolding(mx_grammar::specs::Reading::line, mx_grammar::specs::Reading::text))]
pub fn head_in(alloc: Global, form: HeadForm, words: &[Word]) -> Result<Target, Trouble>
    ensures { Gives (parsed (λ n. line (spec.head_by form)) words.now) result }
{
    let mut left = Cursor::new(words);
    word(&mut left)?;
    let target = named(alloc, &mut left, form)?;
    line_end(&mut left)?;
    Ok(target)
}
