//! The keywords and marks.

ghost use Rattle.std.specs.Prelude.{◌≡◌};
ghost use Rattle.mx_grammar.specs.Words as spec;

use crate::word::Symbol;

pub fn keyword(word: &[u8]) -> Symbol
    ensures { result ≡ spec.keyword_of word.now }
{
    match word {
        b"and" => Symbol::And,
        b"or" => Symbol::Or,
        b"not" => Symbol::Not,
        b"if" => Symbol::If,
        b"else" => Symbol::Else,
        b"elif" => Symbol::Elif,
        b"for" => Symbol::For,
        b"in" => Symbol::In,
        b"is" => Symbol::Is,
        b"None" => Symbol::None,
        b"True" => Symbol::True,
        b"False" => Symbol::False,
        b"pass" => Symbol::Pass,
        b"return" => Symbol::Return,
        _ => Symbol::Unused,
    }
}

#[inline(always)]
pub fn mark(mark: &[u8]) -> Symbol
    ensures { result ≡ spec.mark_of mark.now }
{
    match mark {
        b"+" => Symbol::Plus,
        b"-" => Symbol::Minus,
        b"*" => Symbol::Times,
        b"/" => Symbol::Over,
        b"//" => Symbol::Floor,
        b"%" => Symbol::Rem,
        b"**" => Symbol::Power,
        b"(" => Symbol::OpenRound,
        b")" => Symbol::CloseRound,
        b"[" => Symbol::OpenSquare,
        b"]" => Symbol::CloseSquare,
        b"{" => Symbol::OpenCurly,
        b"}" => Symbol::CloseCurly,
        b"," => Symbol::Comma,
        b":" => Symbol::Colon,
        b"." => Symbol::Dot,
        b"=" => Symbol::Assign,
        b"+=" => Symbol::PlusAssign,
        b"-=" => Symbol::MinusAssign,
        b"*=" => Symbol::TimesAssign,
        b"==" => Symbol::Eq,
        b"!=" => Symbol::Ne,
        b"<" => Symbol::Lt,
        b"<=" => Symbol::Le,
        b">" => Symbol::Gt,
        b">=" => Symbol::Ge,
        _ => Symbol::Unused,
    }
}
