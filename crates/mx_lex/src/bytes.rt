//! The bytes that names, numbers, texts and comments are made of.

ghost use Rattle.std.specs.Prelude.{◌≡◌, ◌≤◌, length};
ghost use Rattle.std.specs.List.{prefix_len};
ghost use Rattle.mx_lex.specs.Bytes as spec;

pub fn begins_name(b: u8) -> bool
    ensures { result ≡ spec.begins_name b }
{
    b.is_ascii_alphabetic() || b == b'_'
}

pub fn continues_name(b: u8) -> bool
    ensures { result ≡ spec.continues_name b }
{
    begins_name(b) || b.is_ascii_digit()
}

pub fn is_quote(b: u8) -> bool
    ensures { result ≡ spec.is_quote b }
{
    b == b'\'' || b == b'"'
}

pub fn is_escaped(b: u8) -> bool
    ensures { result ≡ spec.is_escaped b }
{
    b == b'\\' || is_quote(b)
}

pub fn is_opening(b: u8) -> bool
    ensures { result ≡ spec.is_opening b }
{
    b == b'(' || b == b'[' || b == b'{'
}

pub fn is_closing(b: u8) -> bool
    ensures { result ≡ spec.is_closing b }
{
    b == b')' || b == b']' || b == b'}'
}
