//! What a command says, and why a text is none.
use mx_edit::edit::Edit;
use mx_edit::scope::Scope;
use mx_grammar::refusal::ParseRefusal;
use mx_value::label::Label;
use mx_value::node::{Node, Path};
use std::alloc::AllocError;

/// A command of a script.
#[derive(Drop)]
pub enum Command {
    /// Changes the model text.
    Edit(Edit),
    /// Sets a table of this name, as a file says it.
    Table { name: Label, file: Label },
    /// Evaluates a node.
    Eval(Node),
    /// What a node reads.
    Precedents(Node),
    /// Which held nodes ask a node.
    Succs(Node),
    /// Whether a node is held, or how many are.
    Held(Option<Node>),
    /// Drops held nodes.
    Clear(Scope),
    /// The greatest length of chains.
    Limit(u32),
    /// The layers of a path.
    Order(Path),
}

/// Why a text is no command. Of several causes the first in this order is given.
#[derive(Clone, Copy, Debug, PartialEq, Eq)]
pub enum FormRefusal {
    /// No command has this first word.
    UnknownWord,
    /// The place of the first token that the command's form does not allow, in bytes from the start of the command.
    BadForm(u32),
    /// A formula or a node is refused, with places from its own start, or a head has no tokens, with places from the start
    /// of the command.
    Parse(ParseRefusal),
    NoMemory,
}

impl From<AllocError> for FormRefusal {
    ghost use Rattle.std.specs.Prelude.{◌≡◌};
    ghost use Rattle.mx_words.specs.declared.command.FormRefusal.TheVariants.{NoMemory};

    ghost from_gives = { λ _ e. e ≡ NoMemory };

    fn from(_error: AllocError) -> FormRefusal {
        FormRefusal::NoMemory
    }
}
