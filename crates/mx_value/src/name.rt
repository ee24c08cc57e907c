//! Which labels are names.
ghost use Rattle.std.specs.Prelude.{◌≡◌};
ghost use Rattle.std.specs.List.{list_all, list_any};
ghost use Rattle.mx_value.specs.Name.{is_keyword, is_name, is_name_byte, is_spelled, same_name};

use crate::label::Label;

/// The most bytes of a name.
pub const MOST_NAME: usize = 64;

/// Whether the label can name a space, a cells, a reference or a table: a letter, then letters,
/// digits and `_`, at most 64 bytes, and no keyword of Python.
pub fn is_name(label: &Label) -> bool
    ensures { result ≡ is_name label.now }
{
    let bytes = label.as_slice();
    is_spelled(bytes) && bytes.len() <= MOST_NAME && !is_keyword(bytes)
}

/// Whether the bytes are a letter and then letters, digits and `_`.
fn is_spelled(bytes: &[u8]) -> bool
    ensures { result ≡ is_spelled bytes.now }
{
    match bytes {
        [first, rest @ ..] => { first.is_ascii_alphabetic() && are_name_bytes(rest) }
        [] => false,
    }
}

/// Whether each byte is a letter, a digit or `_`.
fn are_name_bytes(bytes: &[u8]) -> bool
    ensures { result ≡ list_all is_name_byte bytes.now }
{
    bytes.iter().all(|byte| is_name_byte(*byte))
}

/// A letter, a digit or `_`.
pub fn is_name_byte(byte: u8) -> bool
    ensures { result ≡ is_name_byte byte }
{
    byte.is_ascii_alphanumeric() || byte == b'_'
}

/// Python's keywords by their lengths.
const TWO: [&str; 5] = ["as", "if", "in", "is", "or"];

const THREE: [&str; 6] = ["and", "def", "del", "for", "not", "try"];

const FOUR: [&str; 7] = ["elif", "else", "from", "pass", "with", "None", "True"];

const FIVE: [&str; 8] = [
    "async", "await", "break", "class", "raise", "while", "yield", "False",
];

const SIX: [&str; 6] = ["assert", "except", "global", "import", "lambda", "return"];

const SEVEN: [&str; 1] = ["finally"];

const EIGHT: [&str; 2] = ["continue", "nonlocal"];

/// Whether the bytes are one of Python's keywords, those that no formula uses among them. Only
/// those of the same length are compared.
pub fn is_keyword(bytes: &[u8]) -> bool
    ensures { result ≡ is_keyword bytes.now }
{
    match bytes.len() {
        2 => is_among(&TWO, bytes),
        3 => is_among(&THREE, bytes),
        4 => is_among(&FOUR, bytes),
        5 => is_among(&FIVE, bytes),
        6 => is_among(&SIX, bytes),
        7 => is_among(&SEVEN, bytes),
        8 => is_among(&EIGHT, bytes),
        _ => false,
    }
}

/// Whether the bytes are those of one of the words.
fn is_among(words: &[&str], bytes: &[u8]) -> bool
    ensures { result ≡ list_any (λ word. same_name bytes.now word.now) words.now }
{
    words.iter().any(|word| bytes == word.as_bytes())
}
