//! The node of an input, which stands before `=`.
ghost use Rattle.std.specs.Prelude.{◌≡◌, ◌<◌, ◌≤◌, ◌^◌, length};
ghost use Rattle.mx_words.specs.Texts as spec;

/// Where a text is read: in how many brackets, and in a text with which quote, maybe behind a `\`.
#[derive(Clone, Copy)]
pub enum Scan {
    Outside(usize),
    Quoted(usize, u8),
    Escaped(usize, u8),
}

fn behind_open(byte: u8, depth: usize) -> Scan
    requires { depth < 2 ^ 63 }
    ensures { result ≡ spec.behind_open byte depth }
{
    match byte {
        b'(' | b'[' | b'{' => Scan::Outside(depth + 1),
        b')' | b']' | b'}' => Scan::Outside(depth.saturating_sub(1)),
        b'"' | b'\'' => Scan::Quoted(depth, byte),
        _ => Scan::Outside(depth),
    }
}

fn behind_byte(byte: u8, scan: Scan) -> Scan
    requires { spec.depth_of scan < 2 ^ 63 }
    ensures { result ≡ spec.behind_byte byte scan }
{
    match scan {
        Scan::Outside(depth) => behind_open(byte, depth),
        Scan::Quoted(depth, quote) => {
            if byte == b'\\' {
                return Scan::Escaped(depth, quote);
            }
            if byte == quote {
                return Scan::Outside(depth);
            }
            Scan::Quoted(depth, quote)
        }
        Scan::Escaped(depth, quote) => Scan::Quoted(depth, quote),
    }
}

fn is_open(scan: Scan) -> bool
    ensures { result ≡ spec.is_open scan }
{
    match scan {
        Scan::Outside(depth) => depth == 0,
        Scan::Quoted(_, _) => false,
        Scan::Escaped(_, _) => false,
    }
}

/// How many bytes stand before the first `=` outside of texts and brackets.
pub fn node_length(source: &[u8]) -> usize
    ensures count { result ≡ spec.node_length source.now }
    ensures within { result ≤ length source.now }
{
    let mut scan = Scan::Outside(0);
    let mut count = 0;
    for byte in source {
        if is_open(scan) && *byte == b'=' {
            return count;
        }
        scan = behind_byte(*byte, scan);
        count += 1;
    }
    count
}

/// The text without the spaces at its end.
pub fn strip_end(text: &[u8]) -> &[u8]
    ensures { result.now ≡ spec.before_spaces text.now }
{
    let mut end = 0;
    for (i, byte) in text.iter().enumerate() {
        if *byte != b' ' {
            end = i + 1;
        }
    }
    &text[..end]
}
