//! Tokens as the grammar sees them.

ghost use Rattle.std.specs.Prelude.{◌≡◌};
ghost use Rattle.mx_grammar.specs.Words as spec;

use mx_value::fixed::Fixed;
use mx_value::label::Label;

/// A token that has no value: a keyword, a mark, or a line's or a block's beginning or end.
#[derive(Clone, Copy, Debug)]
pub enum Symbol {
    And,
    Or,
    Not,
    If,
    Else,
    Elif,
    For,
    In,
    Is,
    None,
    True,
    False,
    Pass,
    Return,
    /// `+`
    Plus,
    /// `-`
    Minus,
    /// `*`
    Times,
    /// `/`
    Over,
    /// `//`
    Floor,
    /// `%`
    Rem,
    /// `**`
    Power,
    /// `(`
    OpenRound,
    /// `)`
    CloseRound,
    /// `[`
    OpenSquare,
    /// `]`
    CloseSquare,
    /// `{`
    OpenCurly,
    /// `}`
    CloseCurly,
    /// `,`
    Comma,
    /// `:`
    Colon,
    /// `.`
    Dot,
    /// `=`
    Assign,
    /// `+=`
    PlusAssign,
    /// `-=`
    MinusAssign,
    /// `*=`
    TimesAssign,
    /// `==`
    Eq,
    /// `!=`
    Ne,
    /// `<`
    Lt,
    /// `<=`
    Le,
    /// `>`
    Gt,
    /// `>=`
    Ge,
    Newline,
    Indent,
    Dedent,
    End,
    /// A keyword that no form takes.
    Unused,
}

/// A token, with its value where it has one.
#[derive(Drop)]
pub enum Word {
    Name(Label),
    /// An integer, at most 2^63.
    Int(u64),
    Fix(Fixed),
    /// A text, without its quotes and escapes.
    Text(Label),
    Symbol(Symbol),
}

impl Word {
    /// Whether the token is this symbol.
    pub fn is(&self, symbol: Symbol) -> bool
        ensures { result ≡ spec.is symbol self.now }
    {
        match self {
            Word::Symbol(s) => *s as u8 == symbol as u8,
            Word::Name(_) | Word::Int(_) | Word::Fix(_) | Word::Text(_) => false,
        }
    }
}
