//! Displays: what the item of a space is made of.

ghost use Rattle.std.specs.Prelude.{◌≡◌, []};
ghost use Rattle.mx_grammar.specs.Reading.{Reads, accept};
ghost use Rattle.mx_parse.specs.Following.{Goes};
ghost use Rattle.mx_parse.specs.DisplayParsers as spec;
ghost use Rattle.mx_expression.specs.ExpressionParsers.{expression};

use mx_expression::expression::expression;
use mx_grammar::cursor::Cursor;
use mx_grammar::trouble::Trouble;
use mx_grammar::word::Symbol;
use mx_list::items::Items;
use mx_list::list::List;
use mx_syntax::expr::Expr;
use mx_syntax::stmt::ItemEntry;
use mx_value::label::Label;
use mx_value::name::is_name;
use std::alloc::Global;

fn is_refs(entry: &ItemEntry) -> bool
    ensures { result ≡ spec.is_refs entry.now }
{
    match entry {
        ItemEntry::Refs(_) => true,
        ItemEntry::Base(_) => false,
    }
}

/// Whether an entry has references.
fn has_refs(entries: &Items<ItemEntry>) -> bool
    ensures { result ≡ spec.has_refs entries.now }
{
    entries.as_slice().iter().any(is_refs)
}

/// Whether an entry is a base.
fn has_base(entries: &Items<ItemEntry>) -> bool
    ensures { result ≡ spec.has_base entries.now }
{
    entries.as_slice().iter().any(|entry| !is_refs(entry))
}

/// Whether a reference has this key.
fn has_key(refs: &Items<(Label, Expr)>, name: &Label) -> bool
    ensures { result ≡ spec.has_key refs.now name.now }
{
    refs.as_slice().iter().any(|pair| pair.0 == *name)
}

/// Whether the text is no name, or a reference has this key.
fn is_wrong_key(refs: &Items<(Label, Expr)>, text: &Label) -> bool
    ensures { result ≡ spec.is_wrong_key refs.now text.now }
{
    !is_name(text) || has_key(refs, text)
}

/// A name that no reference before has.
fn new_key(tokens: &mut Cursor<'_>, before: &Items<(Label, Expr)>) -> Result<Label, Trouble>
    ensures { Reads (accept (spec.new_key before.now) tokens.old) result tokens.new }
{
    let unexpected = Trouble::Unexpected(tokens.left());
    let name = tokens.text()?;
    if is_wrong_key(before, &name) {
        return Err(unexpected);
    }
    Ok(name)
}

/// A reference behind others.
#[tactic(auto, unfolding(crate::specs::DisplayParsers::reference))]
fn reference(
    alloc: Global,
    tokens: &mut Cursor<'_>,
    levels: usize,
    before: &Items<(Label, Expr)>,
) -> Result<(Label, Expr), Trouble>
    ensures { Reads (spec.reference (expression levels) before.now tokens.old) result tokens.new }
{
    let name = new_key(tokens, before)?;
    tokens.expect(Symbol::Colon)?;
    let value = expression(alloc, tokens, levels)?;
    Ok((name, value))
}

/// Reads a reference behind those found before, or the bracket that closes the list, and answers whether another one may follow.
fn ref_turn(
    alloc: Global,
    tokens: &mut Cursor<'_>,
    levels: usize,
    found: &mut Items<(Label, Expr)>,
) -> Result<bool, Trouble>
    ensures { Goes (spec.ref_turn
        (expression levels) found.old tokens.old) result found.new tokens.new }
{
    if tokens.sees(Symbol::CloseCurly) {
        tokens.expect(Symbol::CloseCurly)?;
        return Ok(false);
    }
    let next = reference(alloc, tokens, levels, found)?;
    found.push(next)?;
    if tokens.sees(Symbol::Comma) {
        tokens.expect(Symbol::Comma)?;
        return Ok(true);
    }
    tokens.expect(Symbol::CloseCurly)?;
    Ok(false)
}

/// The references, behind their opening bracket.
fn refs(
    alloc: Global,
    tokens: &mut Cursor<'_>,
    levels: usize,
) -> Result<Items<(Label, Expr)>, Trouble>
    ensures { Reads (spec.refs (expression levels) [] tokens.old) result tokens.new }
{
    let mut found = Items::new(alloc);
    while ref_turn(alloc, tokens, levels, &mut found)? {}
    Ok(found)
}

/// Whether a text says that an entry has references, where it says what an entry is and no entry before is such a one.
fn says_refs(before: &Items<ItemEntry>, text: &Label) -> Option<bool>
    ensures { result ≡ spec.says_refs before.now text.now }
{
    match text.as_slice() {
        b"refs" if !has_refs(before) => Some(true),
        b"base" | b"bases" if !has_base(before) => Some(false),
        _ => None,
    }
}

/// The word of an entry such as none before is, as whether the entry has references.
fn new_entry(tokens: &mut Cursor<'_>, before: &Items<ItemEntry>) -> Result<bool, Trouble>
    ensures { Reads (accept (spec.new_entry before.now) tokens.old) result tokens.new }
{
    let unexpected = Trouble::Unexpected(tokens.left());
    let text = tokens.text()?;
    match says_refs(before, &text) {
        Some(has_refs) => Ok(has_refs),
        None => Err(unexpected),
    }
}

#[tactic(auto, unfolding(crate::specs::DisplayParsers::refs_entry))]
fn refs_entry(alloc: Global, tokens: &mut Cursor<'_>, levels: usize) -> Result<ItemEntry, Trouble>
    ensures { Reads (spec.refs_entry (expression levels) tokens.old) result tokens.new }
{
    tokens.expect(Symbol::OpenCurly)?;
    let found = refs(alloc, tokens, levels)?;
    Ok(ItemEntry::Refs(List::from_vec(alloc, found.into_vec())?))
}

#[tactic(auto, unfolding(crate::specs::DisplayParsers::base_entry))]
fn base_entry(alloc: Global, tokens: &mut Cursor<'_>, levels: usize) -> Result<ItemEntry, Trouble>
    ensures { Reads (spec.base_entry (expression levels) tokens.old) result tokens.new }
{
    let base = expression(alloc, tokens, levels)?;
    Ok(ItemEntry::Base(base))
}

/// An entry behind others.
#[tactic(auto, unfolding(crate::specs::DisplayParsers::item_entry))]
fn item_entry(
    alloc: Global,
    tokens: &mut Cursor<'_>,
    levels: usize,
    before: &Items<ItemEntry>,
) -> Result<ItemEntry, Trouble>
    ensures { Reads (spec.item_entry (expression levels) before.now tokens.old) result tokens.new }
{
    let has_refs = new_entry(tokens, before)?;
    tokens.expect(Symbol::Colon)?;
    if has_refs {
        return refs_entry(alloc, tokens, levels);
    }
    base_entry(alloc, tokens, levels)
}

/// Reads an entry behind those found before, or the bracket that closes the display, and answers whether another one may follow.
fn entry_turn(
    alloc: Global,
    tokens: &mut Cursor<'_>,
    levels: usize,
    found: &mut Items<ItemEntry>,
) -> Result<bool, Trouble>
    ensures { Goes (spec.entry_turn
        (expression levels) found.old tokens.old) result found.new tokens.new }
{
    if tokens.sees(Symbol::CloseCurly) {
        tokens.expect(Symbol::CloseCurly)?;
        return Ok(false);
    }
    let next = item_entry(alloc, tokens, levels, found)?;
    found.push(next)?;
    if tokens.sees(Symbol::Comma) {
        tokens.expect(Symbol::Comma)?;
        return Ok(true);
    }
    tokens.expect(Symbol::CloseCurly)?;
    Ok(false)
}

/// The entries, behind the opening bracket of their display.
fn entries(
    alloc: Global,
    tokens: &mut Cursor<'_>,
    levels: usize,
) -> Result<Items<ItemEntry>, Trouble>
    ensures { Reads (spec.entries (expression levels) [] tokens.old) result tokens.new }
{
    let mut found = Items::new(alloc);
    while entry_turn(alloc, tokens, levels, &mut found)? {}
    Ok(found)
}

/// A display, with at most `levels` brackets open at once in an expression.
#[tactic(auto, unfolding(crate::specs::DisplayParsers::display))]
pub fn display(
    alloc: Global,
    tokens: &mut Cursor<'_>,
    levels: usize,
) -> Result<List<ItemEntry>, Trouble>
    ensures { Reads (spec.display (expression levels) tokens.old) result tokens.new }
{
    tokens.expect(Symbol::OpenCurly)?;
    let found = entries(alloc, tokens, levels)?;
    Ok(List::from_vec(alloc, found.into_vec())?)
}
