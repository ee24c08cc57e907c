//! What the text of a command says.
ghost use Rattle.std.specs.Prelude.{◌≡◌, ◌≢◌, ◌∷◌, [], true, false, ◌+◌, ◌-◌, ◌≤◌, ℕ, length, drop, None, Result, Ok, Err, IfOk, IfErr, List as Many};
ghost use Rattle.mx_lex.specs.declared.LexRefusal.{LexRefusal};
ghost use Rattle.mx_lex.specs.Lexing.{tokens_of};
ghost use Rattle.mx_grammar.specs.Spelling.{words_of, InText, Answers, Unread};
ghost use Rattle.mx_grammar.specs.Literals.{literal_text, space_of as main_of};
ghost use Rattle.mx_words.specs.declared.command.Command.{Command};
ghost use Rattle.mx_grammar.specs.declared.refusal.ParseRefusal.{ParseRefusal};
ghost use Rattle.mx_words.specs.declared.command.FormRefusal.{FormRefusal};
ghost use Rattle.mx_words.specs.Parts.{IsRead, Unreadable, PartAnswers, Misplaced, Decides, moved};
ghost use Rattle.mx_edit.specs.declared.scope.Scope.TheVariants as scope;
ghost use Rattle.mx_words.specs.declared.command.Command.TheVariants as command;
ghost use Rattle.mx_words.specs.declared.table.Clearing.TheVariants as clearing;
ghost use Rattle.mx_words.specs.Heads.{head_text};
ghost use Rattle.mx_words.specs.Texts.{behind_equals};
ghost use Rattle.mx_words.specs.Phrases.{phrase_text};
ghost use Rattle.mx_script.specs.Commands as spec;
ghost use Rattle.mx_script.specs.Commands.{AddressAnswers, ClearsBy, Clears, HeadAnswers, Defines, Parametrizes, Asks, Inputs, RefersBy, Refers, ReadsAs, Unless};

use crate::argument::{argument, start_of};
use crate::table::table;
use mx_edit::edit::Edit;
use mx_edit::reference::RefValue;
use mx_edit::scope::Scope;
use mx_grammar::words::label;
use mx_lex::{LexRefusal, Token, lex};
use mx_list::items::Items;
use mx_list::list::List;
use mx_list::shared::Shared;
use mx_parse::{ParseRefusal, parse_formula, parse_literal, parse_node, parse_params};
use mx_syntax::stmt::{Formula, Params};
use mx_value::label::Label;
use mx_value::node::{Node, Path};
use mx_value::value::{Addr, Segment, Value};
use mx_words::command::{Command, FormRefusal};
use mx_words::head::{HeadForm, Target};
use mx_words::part::{address, further, names_in, phrase};
use mx_words::phrase::{set_ref, space_at, whole};
use mx_words::scan::{node_length, strip_end};
use mx_words::table::{
    Asked, Clearing, CommandWord, Form, Owner, Phrase, Reference, rest_of, word_of,
};
use mx_words::text::{behind_equals, head_length, name_length, spaces, strip_spaces, word_length};
use std::alloc::{AllocError, Global};

/// The form of a head, where an opening parenthesis stands behind it or not.
fn form_of(opens: bool) -> HeadForm
    ensures { result ≡ spec.form_of opens }
{
    if opens {
        return HeadForm::Names;
    }
    HeadForm::Opened
}

/// The cells that the head of a text names, or why it is refused.
fn head(alloc: Global, lead: usize, text: &[u8]) -> Result<Target, FormRefusal>
    ensures { result ≢ Err FormRefusal.NoMemory → HeadAnswers lead text.now result }
{
    let end = head_length(text);
    names_in(alloc, lead, form_of(end < text.len()), &text[..end])
}

/// A formula of cells as a command.
fn defined(alloc: Global, target: Target, formula: Formula) -> Result<Command, FormRefusal>
    ensures { result ≢ Err FormRefusal.NoMemory → result ≡ spec.defined target (Ok formula) }
{
    let Target { path, name } = target;
    Ok(Command::Edit(Edit::SetCells {
        path: space_at(alloc, path)?,
        name,
        formula,
    }))
}

/// The refusal for a formula that is refused.
fn no_formula(refusal: ParseRefusal) -> FormRefusal
    ensures { result ≢ FormRefusal.NoMemory
        → (refusal ≢ ParseRefusal.NoMemory) × (result ≡ FormRefusal.Parse refusal) }
{
    match refusal {
        ParseRefusal::NoMemory => FormRefusal::NoMemory,
        refusal => FormRefusal::Parse(refusal),
    }
}

/// What a text says that names cells and then has their formula.
fn definition(alloc: Global, lead: usize, text: &[u8]) -> Result<Command, FormRefusal>
    ensures { result ≢ Err FormRefusal.NoMemory → Defines lead text.now result }
{
    let target = match head(alloc, lead, text) {
        Ok(target) => target,
        Err(refusal) => return Err(refusal),
    };
    let end = head_length(text);
    match parse_formula(alloc, &text[end..]) {
        Ok(formula) => defined(alloc, target, formula),
        Err(refusal) => Err(no_formula(refusal)),
    }
}

/// The path of a space with its parameters as a command.
fn parametrized(alloc: Global, target: Target, params: Params) -> Result<Command, AllocError>
    ensures { IfOk result (λ c. Ok c ≡ spec.parametrized target (Ok params)) }
{
    Ok(Command::Edit(Edit::SetParams {
        path: whole(alloc, target)?,
        params: Some(params),
    }))
}

/// What a text says that names a space and then has its parameters.
fn parameters(alloc: Global, lead: usize, text: &[u8]) -> Result<Command, FormRefusal>
    ensures { result ≢ Err FormRefusal.NoMemory → Parametrizes lead text.now result }
{
    let target = match head(alloc, lead, text) {
        Ok(target) => target,
        Err(refusal) => return Err(refusal),
    };
    let end = head_length(text);
    match parse_params(alloc, &text[end..]) {
        Ok(params) => match parametrized(alloc, target, params) {
            Ok(command) => Ok(command),
            Err(_) => Err(FormRefusal::NoMemory),
        },
        Err(refusal) => Err(no_formula(refusal)),
    }
}

/// The place of a line's end in the tokens of a text, or 0 where it has none.
fn newline(alloc: Global, source: &[u8]) -> Result<u32, AllocError>
    ensures { IfOk result (λ place. place ≡ spec.newline_of source.now) }
{
    match lex(alloc, source) {
        Ok(tokens) => Ok(last_but_one(tokens.as_slice())),
        Err(LexRefusal::NoMemory) => Err(AllocError),
        Err(_) => Ok(0),
    }
}

/// The place of the last token but one.
fn last_but_one(tokens: &[Token]) -> u32
    ensures { result ≡ spec.place_of (drop (length tokens.now - 2) tokens.now) }
{
    let last = tokens.len().saturating_sub(2);
    match tokens.get(last) {
        Some(token) => token.at,
        None => 0,
    }
}

/// Whether a text holds no token but its end.
fn is_empty_text(alloc: Global, source: &[u8]) -> Result<bool, AllocError>
    ensures { IfOk result (λ empty. empty ≡ spec.is_empty_text source.now) }
{
    match lex(alloc, source) {
        Ok(tokens) => Ok(tokens.as_slice().len() == 1),
        Err(LexRefusal::NoMemory) => Err(AllocError),
        Err(_) => Ok(false),
    }
}

/// The refusal for an item's node where a node of cells has to stand.
fn no_cells(alloc: Global, start: usize, source: &[u8]) -> FormRefusal
    ensures { result ≢ FormRefusal.NoMemory
        → result ≡ FormRefusal.BadForm (start + spec.newline_of source.now) }
{
    let Ok(place) = newline(alloc, source) else {
        return FormRefusal::NoMemory;
    };
    match further(start, place) {
        Ok(place) => FormRefusal::BadForm(place),
        Err(_) => FormRefusal::NoMemory,
    }
}

/// What is done with the node that a text spells, which begins at this place of the command.
fn asking(alloc: Global, asked: Asked, start: usize, source: &[u8]) -> Result<Command, FormRefusal>
    ensures { result ≢ Err FormRefusal.NoMemory → Asks asked start source.now result }
{
    match parse_node(alloc, source) {
        Ok(node) => asked_command(alloc, asked, start, source, node),
        Err(refusal) => asked_alone(alloc, asked, source, refusal),
    }
}

/// Whether a word stands without a node, which only one word may.
fn is_alone(alloc: Global, asked: Asked, source: &[u8]) -> Result<bool, AllocError>
    ensures { IfOk result (λ alone. alone ≡ spec.is_alone asked source.now) }
{
    match asked {
        Asked::Held => is_empty_text(alloc, source),
        Asked::Value => Ok(false),
        Asked::Precedents => Ok(false),
        Asked::Successors => Ok(false),
        Asked::DelInput => Ok(false),
        Asked::Clear => Ok(false),
    }
}

/// What a word says without a node, whose refusal is this one.
fn asked_alone(
    alloc: Global,
    asked: Asked,
    source: &[u8],
    refusal: ParseRefusal,
) -> Result<Command, FormRefusal>
    ensures { result ≢ Err FormRefusal.NoMemory
        → (refusal ≢ ParseRefusal.NoMemory) × (result ≡ spec.unasked asked source.now refusal) }
{
    match refusal {
        ParseRefusal::NoMemory => Err(FormRefusal::NoMemory),
        refusal => {
            if is_alone(alloc, asked, source)? {
                return Ok(Command::Held(None));
            }
            Err(FormRefusal::Parse(refusal))
        }
    }
}

/// The command that takes the input of a node out, which is a node of cells.
fn uninput(alloc: Global, start: usize, source: &[u8], node: Node) -> Result<Command, FormRefusal>
    ensures { result ≢ Err FormRefusal.NoMemory → result ≡ spec.uninput start source.now node }
{
    match node {
        Node::Cell(space, name, args) => Ok(Command::Edit(Edit::DelInput { space, name, args })),
        Node::Item(_, _) => Err(no_cells(alloc, start, source)),
    }
}

/// What is done with a node.
fn asked_command(
    alloc: Global,
    asked: Asked,
    start: usize,
    source: &[u8],
    node: Node,
) -> Result<Command, FormRefusal>
    ensures { result ≢ Err FormRefusal.NoMemory
        → result ≡ spec.asked_command asked start source.now node }
{
    match asked {
        Asked::Value => Ok(Command::Eval(node)),
        Asked::Precedents => Ok(Command::Precedents(node)),
        Asked::Successors => Ok(Command::Succs(node)),
        Asked::Held => Ok(Command::Held(Some(node))),
        Asked::Clear => Ok(Command::Clear(Scope::One(node))),
        Asked::DelInput => uninput(alloc, start, source, node),
    }
}

/// Where `=` stands behind a node, or the line's end.
fn behind_node(alloc: Global, source: &[u8]) -> Result<u32, AllocError>
    ensures { IfOk result (λ place. place ≡ spec.behind_node source.now) }
{
    let count = node_length(source);
    if count < source.len() {
        return further(count, 0);
    }
    newline(alloc, source)
}

/// The refusal for what is no node of cells with `=` behind it.
fn no_input(alloc: Global, start: usize, source: &[u8]) -> FormRefusal
    ensures { result ≢ FormRefusal.NoMemory
        → result ≡ FormRefusal.BadForm (start + spec.behind_node source.now) }
{
    let Ok(place) = behind_node(alloc, source) else {
        return FormRefusal::NoMemory;
    };
    match further(start, place) {
        Ok(place) => FormRefusal::BadForm(place),
        Err(_) => FormRefusal::NoMemory,
    }
}

/// An input of cells: the literal behind `=`.
fn set_input(
    alloc: Global,
    space: Addr,
    name: Label,
    args: Items<Value>,
    literal: &[u8],
) -> Result<Command, FormRefusal>
    ensures { result ≢ Err FormRefusal.NoMemory
        → Decides (Answers literal_text literal.now) (spec.input_of space name args) result }
{
    match parse_literal(alloc, literal) {
        Ok(value) => Ok(Command::Edit(Edit::SetInput {
            space,
            name,
            args,
            value,
        })),
        Err(refusal) => Err(no_formula(refusal)),
    }
}

/// The literal behind the node of an input.
fn literal_of(source: &[u8]) -> &[u8]
    requires { spec.has_literal source.now ≡ true }
    ensures { result.now ≡ spec.input_literal source.now }
{
    let count = node_length(source);
    strip_spaces(&source[count + 1..])
}

/// What a node, `=` and a literal say, which begin at this place of the command.
fn input(alloc: Global, start: usize, source: &[u8]) -> Result<Command, FormRefusal>
    ensures { result ≢ Err FormRefusal.NoMemory → Inputs start source.now result }
{
    let count = node_length(source);
    let node = match parse_node(alloc, strip_end(&source[..count])) {
        Ok(node) => node,
        Err(refusal) => return Err(no_formula(refusal)),
    };
    match node {
        Node::Cell(space, name, args) => {
            if count < source.len() {
                return set_input(alloc, space, name, args, literal_of(source));
            }
            Err(no_input(alloc, start, source))
        }
        Node::Item(_, _) => Err(no_input(alloc, start, source)),
    }
}

/// What a value refers to, by the word that it begins with.
fn reference_of(word: &[u8]) -> Option<Reference>
    ensures { result ≡ spec.reference_of word.now }
{
    if word == b"table".as_slice() {
        return Some(Reference::Table);
    }
    if word == b"to".as_slice() {
        return Some(Reference::To);
    }
    if word == b"abs".as_slice() {
        return Some(Reference::Abs);
    }
    None
}

/// A reference with a plain value as a command.
fn referred(
    alloc: Global,
    owner: Owner,
    target: Target,
    value: Value,
) -> Result<Command, AllocError>
    ensures { IfOk result (λ c. Ok c ≡ spec.referred owner target (Ok value)) }
{
    let value = RefValue::Plain(Shared::new(alloc, value)?);
    set_ref(alloc, owner, target, value)
}

/// What a reference says whose value is a literal, behind a head of so many bytes.
fn literal_reference(
    alloc: Global,
    owner: Owner,
    lead: usize,
    text: &[u8],
    end: usize,
) -> Result<Command, FormRefusal>
    requires within { end ≤ length text.now }
    requires end { end ≡ behind_equals text.now }
    ensures { result ≢ Err FormRefusal.NoMemory → RefersBy None owner lead text.now result }
{
    let target = match names_in(alloc, lead, HeadForm::Reference(owner), &text[..end]) {
        Ok(target) => target,
        Err(refusal) => return Err(refusal),
    };
    match parse_literal(alloc, strip_spaces(&text[end..])) {
        Ok(value) => match referred(alloc, owner, target, value) {
            Ok(command) => Ok(command),
            Err(_) => Err(FormRefusal::NoMemory),
        },
        Err(refusal) => Err(no_formula(refusal)),
    }
}

/// What a reference, `=` and its value say.
fn refers(alloc: Global, owner: Owner, lead: usize, text: &[u8]) -> Result<Command, FormRefusal>
    ensures { result ≢ Err FormRefusal.NoMemory → Refers owner lead text.now result }
{
    let Ok(end) = behind_equals(alloc, text) else {
        return Err(FormRefusal::NoMemory);
    };
    let value = strip_spaces(&text[end..]);
    let word = name_length(value);
    match reference_of(&value[..word]) {
        Some(kind) => phrase(alloc, Phrase::Refers(owner, kind), lead, text),
        None => literal_reference(alloc, owner, lead, text, end),
    }
}

/// What a clearing drops, by the name behind its word.
fn clearing_of(name: &[u8]) -> Clearing
    ensures { result ≡ spec.clearing_of name.now }
{
    if name == b"space".as_slice() {
        return Clearing::Space;
    }
    if name == b"cells".as_slice() {
        return Clearing::Cells;
    }
    if name == b"node".as_slice() {
        return Clearing::Node;
    }
    Clearing::All
}

fn copied(alloc: Global, segments: &[Segment]) -> Result<Addr, AllocError>
    ensures { IfOk result (λ a. a ≡ segments.now) }
{
    let mut copies = Vec::new(alloc);
    for segment in segments {
        copies.push(segment.copy(alloc)?)?;
    }
    List::from_vec(alloc, copies)
}

/// The segments in front of the last, or that of `Main` where there are none.
fn main_of(alloc: Global, front: &[Segment]) -> Result<Addr, AllocError>
    ensures { IfOk result (λ a. a ≡ main_of front.now) }
{
    if front.is_empty() {
        let mut main = Vec::new(alloc);
        main.push(Segment::Name(label(alloc, b"Main")?))?;
        return List::from_vec(alloc, main);
    }
    copied(alloc, front)
}

/// The cells that the last segment of an address names, behind these, which is no item.
fn cells_by(
    alloc: Global,
    lead: usize,
    text: &[u8],
    front: &[Segment],
    last: &Segment,
) -> Result<Command, FormRefusal>
    ensures { result ≢ Err FormRefusal.NoMemory
        → result ≡ spec.cells_by (lead + spec.newline_of text.now) front.now (last.now ∷ []) }
{
    match last {
        Segment::Name(name) => match named_cells(alloc, front, name) {
            Ok(command) => Ok(command),
            Err(_) => Err(FormRefusal::NoMemory),
        },
        Segment::Item(_) => Err(no_cells(alloc, lead, text)),
    }
}

/// The cells at an address, which does not end with an item.
fn cells_at(
    alloc: Global,
    lead: usize,
    text: &[u8],
    address: &[Segment],
) -> Result<Command, FormRefusal>
    ensures { result ≢ Err FormRefusal.NoMemory
        → result ≡ spec.cells_at (lead + spec.newline_of text.now) address.now }
{
    let last = address.len().saturating_sub(1);
    match address.get(last) {
        Some(segment) => cells_by(alloc, lead, text, &address[..last], segment),
        None => Err(no_cells(alloc, lead, text)),
    }
}

fn named_cells(alloc: Global, front: &[Segment], name: &Label) -> Result<Command, AllocError>
    ensures { IfOk result (λ c. c ≡ command.Clear (scope.Cells (main_of front.now) name.now)) }
{
    let space = main_of(alloc, front)?;
    Ok(Command::Clear(Scope::Cells(space, name.copy()?)))
}

/// A clearing of the nodes at an address.
fn clear_space(alloc: Global, lead: usize, text: &[u8]) -> Result<Command, FormRefusal>
    ensures { result ≢ Err FormRefusal.NoMemory → ClearsBy clearing.Space lead text.now result }
{
    match address(alloc, b"space", lead, text) {
        Ok(address) => Ok(Command::Clear(Scope::Space(address))),
        Err(refusal) => Err(refusal),
    }
}

/// A clearing of the nodes of cells.
fn clear_cells(alloc: Global, lead: usize, text: &[u8]) -> Result<Command, FormRefusal>
    ensures { result ≢ Err FormRefusal.NoMemory → ClearsBy clearing.Cells lead text.now result }
{
    match address(alloc, b"cells", lead, text) {
        Ok(address) => cells_at(alloc, lead, text, address.as_slice()),
        Err(refusal) => Err(refusal),
    }
}

/// A clearing of a node.
fn clear_node(alloc: Global, lead: usize, text: &[u8]) -> Result<Command, FormRefusal>
    ensures { result ≢ Err FormRefusal.NoMemory → ClearsBy clearing.Node lead text.now result }
{
    let source = argument(text);
    let word = name_length(source);
    let source = strip_spaces(&source[word..]);
    let Ok(start) = start_of(lead, text, source) else {
        return Err(FormRefusal::NoMemory);
    };
    asking(alloc, Asked::Clear, start, source)
}

/// What a clearing says.
fn clear(alloc: Global, lead: usize, text: &[u8]) -> Result<Command, FormRefusal>
    ensures { result ≢ Err FormRefusal.NoMemory → Clears lead text.now result }
{
    let source = argument(text);
    let word = name_length(source);
    match clearing_of(&source[..word]) {
        Clearing::All => phrase(alloc, Phrase::ClearAll, lead, text),
        Clearing::Space => clear_space(alloc, lead, text),
        Clearing::Cells => clear_cells(alloc, lead, text),
        Clearing::Node => clear_node(alloc, lead, text),
    }
}

fn read(alloc: Global, words: &[CommandWord], text: &[u8]) -> Result<Command, FormRefusal>
    ensures { result ≢ Err FormRefusal.NoMemory → ReadsAs words.now text.now result }
{
    let lead = spaces(text);
    let text = &text[lead..];
    let end = word_length(text);
    match word_of(words, &text[..end]) {
        Some(word) => rest(alloc, rest_of(word).form, lead, text),
        None => Err(FormRefusal::UnknownWord),
    }
}

/// What a text says whose word has a form of this kind behind it.
fn rest(alloc: Global, form: Form, lead: usize, text: &[u8]) -> Result<Command, FormRefusal>
    ensures { result ≢ Err FormRefusal.NoMemory → spec.ReadsRest form lead text.now result }
{
    match form {
        Form::Cells => definition(alloc, lead, text),
        Form::Params => parameters(alloc, lead, text),
        Form::Phrase(form) => phrase(alloc, form, lead, text),
        Form::Node(asked) => {
            let source = argument(text);
            let Ok(start) = start_of(lead, text, source) else {
                return Err(FormRefusal::NoMemory);
            };
            asking(alloc, asked, start, source)
        }
        Form::Input => {
            let source = argument(text);
            let Ok(start) = start_of(lead, text, source) else {
                return Err(FormRefusal::NoMemory);
            };
            input(alloc, start, source)
        }
        Form::Table => table(alloc, lead, text),
        Form::Clear => clear(alloc, lead, text),
        Form::Reference(owner) => refers(alloc, owner, lead, text),
    }
}

/// The command that a text says: its lines without their ends, joined by LF. Its first word is one of `words`; the words and
/// what stands behind each are those of `table`.
pub fn read_command(
    alloc: Global,
    words: &[CommandWord],
    text: &[u8],
) -> Result<Command, FormRefusal>
    // The answer is what the text says, or the first cause of a refusal.
    ensures found { result ≢ Err FormRefusal.NoMemory → ReadsAs words.now text.now result }
    // What the text says is the answer, and so is the first cause, unless memory runs out.
    ensures only { (answer : Result Command FormRefusal)
        → ReadsAs words.now text.now answer → Unless answer result }
{
    read(alloc, words, text)
}
