//! The lines of a file, and what decides what a line is.
ghost use Rattle.std.specs.Prelude.{◌≡◌, ◌≢◌, ◌<◌, ◌∷◌, [], ℕ, length, slice_index, IfSome, IfNone, MatchOption};
ghost use Rattle.mx_script.specs.Script.{without_cr, is_blank, goes_on, lines_of};

/// The place of the first LF, from 0.
pub fn line_end(bytes: &[u8]) -> Option<usize>
    ensures within { IfSome result (λ at. at < length bytes.now) }
    ensures before { IfSome result (λ at. (k : ℕ) → k < at → slice_index bytes.now k ≢ 10) }
    ensures found { IfSome result (λ at. slice_index bytes.now at ≡ 10) }
    ensures none { IfNone result ((k : ℕ) → k < length bytes.now → slice_index bytes.now k ≢ 10) }
{
    for (at, byte) in bytes.iter().enumerate() {
        if *byte == b'\n' {
            return Some(at);
        }
    }
    None
}

/// The first line of bytes without its LF, and what stands behind it.
pub fn first_line(bytes: &[u8]) -> Option<(&[u8], &[u8])>
    ensures lines { MatchOption result (lines_of bytes.now ≡ [])
        (λ parts. lines_of bytes.now ≡ parts.0.now ∷ lines_of parts.1.now) }
    ensures shorter { IfSome result (λ parts. length parts.1.now < length bytes.now) }
{
    if bytes.is_empty() {
        return None;
    }
    match line_end(bytes) {
        Some(end) => Some((&bytes[..end], &bytes[end + 1..])),
        None => Some((bytes, &[])),
    }
}

/// The line without the one CR at its end, where there is one.
pub fn strip_cr(line: &[u8]) -> &[u8]
    ensures { result.now ≡ without_cr line.now }
{
    match line {
        [front @ .., b'\r'] => front,
        _ => line,
    }
}

/// Whether a line, behind its leading spaces, gives no command: it is empty or a comment.
pub fn blank(text: &[u8]) -> bool
    ensures { result ≡ is_blank text.now }
{
    match text {
        [] => true,
        [first, ..] => *first == b'#',
    }
}

/// Whether a line goes on with a command before it that takes such lines.
pub fn continues(line: &[u8]) -> bool
    ensures { result ≡ goes_on line.now }
{
    match line {
        [] => true,
        [first, ..] => *first == b' ' || *first == b'#',
    }
}
