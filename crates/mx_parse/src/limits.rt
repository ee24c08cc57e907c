//! Whether a printed text is within the limits of a source.

ghost use Rattle.std.specs.Prelude.{◌≡◌, Some, Ok, true, false};
ghost use Rattle.mx_grammar.specs.Limits.{IsLong, IsShort};
ghost use Rattle.mx_print.specs.Statements as text;

use crate::bytes::few_openings;
use mx_grammar::refusal::ParseRefusal;
use mx_grammar::source::open;
use mx_print::formula::{params_size, print, print_params, size};
use mx_syntax::stmt::{Formula, Params};
use std::alloc::{AllocError, Global};

/// How many bytes a source may have.
const MOST_BYTES: usize = 65_536;

/// How many brackets and indents may be open at once.
const MOST_OPEN: usize = 64;

/// Whether the text of a formula is longer than a source may be, or more deeply nested. It is
/// printed and read again only where it has so many brackets and lines that it may be.
pub fn is_formula_long(alloc: Global, formula: &Formula) -> Result<bool, AllocError>
    ensures long { result ≡ Ok true → IsLong (Some (text.print formula.now)) }
    ensures short { result ≡ Ok false → IsShort (Some (text.print formula.now)) }
{
    let size = size(formula)?;
    if size.len > MOST_BYTES {
        return Ok(true);
    }
    if size.openings <= MOST_OPEN {
        few_openings();
        return Ok(false);
    }
    let text = print(alloc, formula)?;
    return is_long(alloc, text.as_slice());
}

/// The same of a parameter list.
pub fn are_params_long(alloc: Global, params: &Params) -> Result<bool, AllocError>
    ensures long { result ≡ Ok true → IsLong (Some (text.print_params params.now)) }
    ensures short { result ≡ Ok false → IsShort (Some (text.print_params params.now)) }
{
    let size = params_size(params)?;
    if size.len > MOST_BYTES {
        return Ok(true);
    }
    if size.openings <= MOST_OPEN {
        few_openings();
        return Ok(false);
    }
    let text = print_params(alloc, params)?;
    return is_long(alloc, text.as_slice());
}

/// Whether a text is longer than a source may be, or more deeply nested.
fn is_long(alloc: Global, text: &[u8]) -> Result<bool, AllocError>
    ensures long { result ≡ Ok true → IsLong (Some text.now) }
    ensures short { result ≡ Ok false → IsShort (Some text.now) }
{
    if text.len() > MOST_BYTES {
        return Ok(true);
    }
    match open(alloc, text) {
        Ok(_) => return Ok(false),
        Err(ParseRefusal::NoMemory) => return Err(AllocError),
        Err(ParseRefusal::TooNested(_)) => return Ok(true),
        Err(_) => return Ok(false),
    }
}
