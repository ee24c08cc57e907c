//! Texts in quotes.

ghost use Rattle.std.specs.Prelude.{◌≡◌, ◌+◌, ◌≤◌, ◌<◌, length, false, IfOk};
ghost use Rattle.mx_lex.specs.Spans as spec;

use crate::bytes::is_escaped;
use crate::spans::Span;
use crate::{LexRefusal, TokenKind};
use mx_value::label::is_printable;

/// The place behind the closing quote. The bytes are those behind the opening one, which stands at `at`.
fn text_end(inner: &[u8], quote: u8, at: u32) -> Result<u32, LexRefusal>
    requires { at + 1 + length inner.now ≤ 65536 }
    ensures value { result ≡ spec.text_end at quote false (at + 1) inner.now }
    ensures behind { IfOk result (λ past. at < past) }
{
    let mut escaped = false;
    for (i, b) in inner.iter().enumerate() {
        let place = at + 1 + i as u32;
        if *b == b'\n' {
            return Err(LexRefusal::BadText(at));
        }
        if !is_printable(*b) {
            return Err(LexRefusal::BadByte(place));
        }
        if escaped {
            if !is_escaped(*b) {
                return Err(LexRefusal::BadText(at));
            }
            escaped = false;
        } else if *b == b'\\' {
            escaped = true;
        } else if *b == quote {
            return Ok(place + 1);
        }
    }
    Err(LexRefusal::BadText(at))
}

/// The text at the front of the rest, which begins with a quote.
pub fn text(rest: &[u8], at: u32) -> Result<Span, LexRefusal>
    requires { at + length rest.now ≤ 65536 }
    ensures { result ≡ spec.text_at at rest.now }
{
    let [quote, inner @ ..] = rest else {
        return Err(LexRefusal::BadText(at));
    };
    let past = text_end(inner, *quote, at)?;
    Ok(Span {
        kind: TokenKind::Text,
        len: (past - at) as usize,
    })
}
