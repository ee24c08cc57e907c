//! Addresses and nodes.

ghost use Rattle.std.specs.Prelude.{◌≡◌, ◌<◌, IfOk};
ghost use Rattle.mx_grammar.specs.Reading.{Reads, turning};
ghost use Rattle.mx_grammar.specs.LiteralParsers.{literal};
ghost use Rattle.mx_grammar.specs.Literals.{space_of};
ghost use Rattle.mx_grammar.specs.AddressParsers as spec;
ghost use Rattle.mx_grammar.specs.AddressParsers.{Goes, Ends};

use crate::cursor::Cursor;
use crate::literal::{listed, some_listed};
use crate::trouble::Trouble;
use crate::word::Symbol;
use crate::words::label;
use mx_list::items::Items;
use mx_list::list::List;
use mx_value::node::Node;
use mx_value::value::{Addr, Segment, Value};
use std::alloc::{AllocError, Global};

/// A step of a node.
#[derive(Drop)]
enum Turn {
    /// Another one follows these.
    On(Items<Segment>),
    Done(Node),
}

#[tactic(auto, unfolding(crate::specs::AddressParsers::index))]
fn index(alloc: Global, tokens: &mut Cursor<'_>, levels: usize) -> Result<Items<Value>, Trouble>
    ensures { Reads (spec.index (literal levels) tokens.old) result tokens.new }
{
    tokens.expect(Symbol::OpenSquare)?;
    some_listed(alloc, tokens, levels, Symbol::CloseSquare)
}

#[tactic(auto, unfolding(crate::specs::AddressParsers::arguments))]
fn arguments(alloc: Global, tokens: &mut Cursor<'_>, levels: usize) -> Result<Items<Value>, Trouble>
    ensures { Reads (spec.arguments (literal levels) tokens.old) result tokens.new }
{
    tokens.expect(Symbol::OpenRound)?;
    listed(alloc, tokens, levels, Symbol::CloseRound, Items::new(alloc))
}

/// Reads a step of an address behind those found before, and answers whether another one follows.
#[tactic(auto, unfolding(crate::specs::AddressParsers::addr_turn, crate::specs::AddressParsers::dotted))]
fn addr_turn(
    alloc: Global,
    tokens: &mut Cursor<'_>,
    levels: usize,
    found: &mut Items<Segment>,
) -> Result<bool, Trouble>
    ensures { Goes (spec.addr_turn
        (literal levels) found.old tokens.old) result found.new tokens.new }
{
    let name = tokens.name()?;
    found.push(Segment::Name(name))?;
    if tokens.sees(Symbol::OpenSquare) {
        let arguments = index(alloc, tokens, levels)?;
        found.push(Segment::Item(arguments))?;
    }
    if tokens.sees(Symbol::Dot) {
        tokens.expect(Symbol::Dot)?;
        return Ok(true);
    }
    Ok(false)
}

pub fn addr(alloc: Global, tokens: &mut Cursor<'_>, levels: usize) -> Result<Addr, Trouble>
    requires { 0 < levels }
    ensures { Reads (spec.addr (literal levels) tokens.old) result tokens.new }
{
    let mut found = Items::new(alloc);
    while addr_turn(alloc, tokens, levels, &mut found)? {}
    Ok(List::from_vec(alloc, found.into_vec())?)
}

/// The address, or that of the space `Main` where there is none.
fn space_at(alloc: Global, found: Items<Segment>) -> Result<Addr, AllocError>
    ensures { IfOk result (λ a. a ≡ space_of found) }
{
    let mut found = found;
    if found.as_slice().is_empty() {
        found.push(Segment::Name(label(alloc, b"Main")?))?;
    }
    List::from_vec(alloc, found.into_vec())
}

/// Reads a step of a node behind those found before, and answers the node where it ends here.
#[tactic(auto, unfolding(crate::specs::AddressParsers::node_turn, crate::specs::AddressParsers::dotted))]
fn node_turn(
    alloc: Global,
    tokens: &mut Cursor<'_>,
    levels: usize,
    found: Items<Segment>,
) -> Result<Turn, Trouble>
    ensures { Ends (spec.node_turn (literal levels) found tokens.old) result tokens.new }
{
    let mut found = found;
    let name = tokens.name()?;
    if tokens.sees(Symbol::OpenRound) {
        let arguments = arguments(alloc, tokens, levels)?;
        let space = space_at(alloc, found)?;
        return Ok(Turn::Done(Node::Cell(space, name, arguments)));
    }
    if tokens.sees(Symbol::OpenSquare) {
        let arguments = index(alloc, tokens, levels)?;
        found.push(Segment::Name(name))?;
        if tokens.sees(Symbol::Dot) {
            tokens.expect(Symbol::Dot)?;
            found.push(Segment::Item(arguments))?;
            return Ok(Turn::On(found));
        }
        let space = List::from_vec(alloc, found.into_vec())?;
        return Ok(Turn::Done(Node::Item(space, arguments)));
    }
    tokens.expect(Symbol::Dot)?;
    found.push(Segment::Name(name))?;
    Ok(Turn::On(found))
}

pub fn node(alloc: Global, tokens: &mut Cursor<'_>, levels: usize) -> Result<Node, Trouble>
    requires { 0 < levels }
    ensures { Reads (spec.node_by (literal levels) tokens.old) result tokens.new }
{
    let mut found = Items::new(alloc);
    loop {
        match node_turn(alloc, tokens, levels, found)? {
            Turn::On(steps) => found = steps,
            Turn::Done(node) => return Ok(node),
        }
    }
}
