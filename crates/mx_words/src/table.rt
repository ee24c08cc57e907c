//! The words of commands: how each is written, what stands behind it, and whether it takes further lines.
ghost use Rattle.std.specs.Prelude.{◌≡◌};
ghost use Rattle.mx_words.specs.Words as spec;

use crate::text::word_length;

/// The first word of a command. A reader is given those that it takes; every other word is unknown to it.
#[derive(Clone, Copy, Debug, PartialEq, Eq)]
pub enum CommandWord {
    Space,
    Unspace,
    Bases,
    Cells,
    Def,
    Uncells,
    Allow,
    Disallow,
    Ref,
    Unref,
    Params,
    Unparams,
    Global,
    Unglobal,
    Input,
    Uninput,
    Table,
    Eval,
    Precedents,
    Succs,
    Held,
    Clear,
    Limit,
    Order,
}

/// Every word, in order of the table.
pub const WORDS: [CommandWord; 24] = [
    CommandWord::Space,
    CommandWord::Unspace,
    CommandWord::Bases,
    CommandWord::Cells,
    CommandWord::Def,
    CommandWord::Uncells,
    CommandWord::Allow,
    CommandWord::Disallow,
    CommandWord::Ref,
    CommandWord::Unref,
    CommandWord::Params,
    CommandWord::Unparams,
    CommandWord::Global,
    CommandWord::Unglobal,
    CommandWord::Input,
    CommandWord::Uninput,
    CommandWord::Table,
    CommandWord::Eval,
    CommandWord::Precedents,
    CommandWord::Succs,
    CommandWord::Held,
    CommandWord::Clear,
    CommandWord::Limit,
    CommandWord::Order,
];

/// What a command does with the path or the cells that stand behind its word.
#[derive(Clone, Copy, Debug, PartialEq, Eq)]
pub enum Named {
    /// A new space of the last name, under the rest.
    NewSpace,
    DelSpace,
    DelParams,
    /// The order of a path's layers.
    Order,
    DelCells,
    /// Lets the cells' formula give None.
    Allow,
    Disallow,
    DelRef,
}

/// A small language of its own behind a word.
#[derive(Clone, Copy, Debug, PartialEq, Eq)]
pub enum Phrase {
    /// Names with points between.
    Names(Named),
    /// A name, whose reference of the model goes.
    DelGlobal,
    /// The greatest length of chains.
    Limit,
    /// The word `all`.
    ClearAll,
    /// A space, and its bases behind `:`.
    Bases,
    /// A reference, and what it refers to behind `=`.
    Refers(Owner, Reference),
}

/// What has a reference.
#[derive(Clone, Copy, Debug, PartialEq, Eq)]
pub enum Owner {
    Space,
    Model,
}

/// What a reference that is no literal refers to.
#[derive(Clone, Copy, Debug, PartialEq, Eq)]
pub enum Reference {
    Table,
    To,
    /// The same, always from the top.
    Abs,
}

/// What is asked about a node, or done with it.
#[derive(Clone, Copy, Debug, PartialEq, Eq)]
pub enum Asked {
    Value,
    Precedents,
    Successors,
    /// Whether it is held; without a node how many are.
    Held,
    /// Takes an input out, which is a node of cells.
    DelInput,
    Clear,
}

/// What a clearing drops, by the name behind its word.
#[derive(Clone, Copy, Debug, PartialEq, Eq)]
pub enum Clearing {
    All,
    Space,
    Cells,
    Node,
}

/// What stands behind the word of a command.
#[derive(Clone, Copy, Debug, PartialEq, Eq)]
pub enum Form {
    /// The name of cells, maybe behind the path of their space, and from the first opening parenthesis on their formula.
    Cells,
    /// The path of a space, and from the first opening parenthesis on its parameters.
    Params,
    Phrase(Phrase),
    /// A node.
    Node(Asked),
    /// A node, `=` and a literal.
    Input,
    /// The name of a table, and the name of its file.
    Table,
    /// A reference, `=` and its value.
    Reference(Owner),
    /// What is dropped.
    Clear,
}

/// What stands behind a word, and whether it may go on in further lines.
#[derive(Clone, Copy, Debug, PartialEq, Eq)]
pub struct Rest {
    pub form: Form,
    pub takes_lines: bool,
}

fn one(form: Form) -> Rest
    ensures { result ≡ spec.one form }
{
    Rest {
        form,
        takes_lines: false,
    }
}

fn several(form: Form) -> Rest
    ensures { result ≡ spec.several form }
{
    Rest {
        form,
        takes_lines: true,
    }
}

fn names(named: Named) -> Form
    ensures { result ≡ spec.names named }
{
    Form::Phrase(Phrase::Names(named))
}

/// The table of the words: what stands behind each.
pub fn rest_of(word: CommandWord) -> Rest
    ensures { result ≡ spec.rest_of word }
{
    match word {
        CommandWord::Space => one(names(Named::NewSpace)),
        CommandWord::Unspace => one(names(Named::DelSpace)),
        CommandWord::Bases => one(Form::Phrase(Phrase::Bases)),
        CommandWord::Cells => several(Form::Cells),
        CommandWord::Def => several(Form::Cells),
        CommandWord::Uncells => one(names(Named::DelCells)),
        CommandWord::Allow => one(names(Named::Allow)),
        CommandWord::Disallow => one(names(Named::Disallow)),
        CommandWord::Ref => one(Form::Reference(Owner::Space)),
        CommandWord::Unref => one(names(Named::DelRef)),
        CommandWord::Params => several(Form::Params),
        CommandWord::Unparams => one(names(Named::DelParams)),
        CommandWord::Global => one(Form::Reference(Owner::Model)),
        CommandWord::Unglobal => one(Form::Phrase(Phrase::DelGlobal)),
        CommandWord::Input => one(Form::Input),
        CommandWord::Uninput => one(Form::Node(Asked::DelInput)),
        CommandWord::Table => one(Form::Table),
        CommandWord::Eval => one(Form::Node(Asked::Value)),
        CommandWord::Precedents => one(Form::Node(Asked::Precedents)),
        CommandWord::Succs => one(Form::Node(Asked::Successors)),
        CommandWord::Held => one(Form::Node(Asked::Held)),
        CommandWord::Clear => one(Form::Clear),
        CommandWord::Limit => one(Form::Phrase(Phrase::Limit)),
        CommandWord::Order => one(names(Named::Order)),
    }
}

/// Whether a text is this word.
fn is_word(word: CommandWord, text: &[u8]) -> bool
    ensures { result ≡ spec.is_word word text.now }
{
    match word {
        CommandWord::Space => text == b"space".as_slice(),
        CommandWord::Unspace => text == b"unspace".as_slice(),
        CommandWord::Bases => text == b"bases".as_slice(),
        CommandWord::Cells => text == b"cells".as_slice(),
        CommandWord::Def => text == b"def".as_slice(),
        CommandWord::Uncells => text == b"uncells".as_slice(),
        CommandWord::Allow => text == b"allow".as_slice(),
        CommandWord::Disallow => text == b"disallow".as_slice(),
        CommandWord::Ref => text == b"ref".as_slice(),
        CommandWord::Unref => text == b"unref".as_slice(),
        CommandWord::Params => text == b"params".as_slice(),
        CommandWord::Unparams => text == b"unparams".as_slice(),
        CommandWord::Global => text == b"global".as_slice(),
        CommandWord::Unglobal => text == b"unglobal".as_slice(),
        CommandWord::Input => text == b"input".as_slice(),
        CommandWord::Uninput => text == b"uninput".as_slice(),
        CommandWord::Table => text == b"table".as_slice(),
        CommandWord::Eval => text == b"eval".as_slice(),
        CommandWord::Precedents => text == b"precedents".as_slice(),
        CommandWord::Succs => text == b"succs".as_slice(),
        CommandWord::Held => text == b"held".as_slice(),
        CommandWord::Clear => text == b"clear".as_slice(),
        CommandWord::Limit => text == b"limit".as_slice(),
        CommandWord::Order => text == b"order".as_slice(),
    }
}

/// Which of these words a text is.
pub fn word_of(words: &[CommandWord], text: &[u8]) -> Option<CommandWord>
    ensures { result ≡ spec.word_of words.now text.now }
{
    for word in words {
        if is_word(*word, text) {
            return Some(*word);
        }
    }
    None
}

/// Whether a command takes the lines that go on. The text begins with its first word, which has to be one of these.
pub fn takes_lines(words: &[CommandWord], text: &[u8]) -> bool
    ensures { result ≡ spec.takes_lines words.now text.now }
{
    let end = word_length(text);
    match word_of(words, &text[..end]) {
        Some(word) => rest_of(word).takes_lines,
        None => false,
    }
}
