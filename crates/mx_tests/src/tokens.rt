//! Sources with their tokens, or with their first trouble. A token is written as its kind, its place and `+` its length,
//! where that is not 0.

use crate::said::{Reader, compare, is};
use crate::sources::push_tokens;
use std::test::Fail;

const BLANK_LINES_COMMENTS: [(&[u8], &str); 16] = [
    (b"", "End 0"),
    (b"\n", "End 1"),
    (b"   ", "End 3"),
    (b"# c", "End 3"),
    (b"  # c\n\n", "End 7"),
    (b"x", "Name 0+1 Newline 1 End 1"),
    (b"x\n", "Name 0+1 Newline 1 End 2"),
    (b"x # c", "Name 0+1 Newline 2 End 5"),
    (b"x # c\n", "Name 0+1 Newline 2 End 6"),
    (b"x#", "Name 0+1 Newline 1 End 2"),
    (b"x   ", "Name 0+1 Newline 4 End 4"),
    (b"x  \n", "Name 0+1 Newline 3 End 4"),
    (
        b"x\n\n  \n# c\ny",
        "Name 0+1 Newline 1 Name 10+1 Newline 11 End 11",
    ),
    (
        b"x\n    # c\ny\n",
        "Name 0+1 Newline 1 Name 10+1 Newline 11 End 12",
    ),
    (b"# c\n  # d\nx", "Name 10+1 Newline 11 End 11"),
    (
        b"x # c\n  # d\ny # e",
        "Name 0+1 Newline 2 Name 12+1 Newline 14 End 17",
    ),
];

const INDENTS: [(&[u8], &str); 21] = [
    (b" x", "bad indent at line 1"),
    (b"\n\n x", "bad indent at line 3"),
    (b"# c\n  x", "bad indent at line 2"),
    (
        b"a:\n  b\nc",
        "Name 0+1 Mark 1+1 Newline 2 Indent 5 Name 5+1 Newline 6 Dedent 7 Name 7+1 Newline 8 End 8",
    ),
    (
        b"a\n  b",
        "Name 0+1 Newline 1 Indent 4 Name 4+1 Newline 5 Dedent 5 End 5",
    ),
    (
        b"a\n  b\n",
        "Name 0+1 Newline 1 Indent 4 Name 4+1 Newline 5 Dedent 6 End 6",
    ),
    (
        b"a\n  b # c",
        "Name 0+1 Newline 1 Indent 4 Name 4+1 Newline 6 Dedent 9 End 9",
    ),
    (
        b"a\n  b\n    c\nd",
        "Name 0+1 Newline 1 Indent 4 Name 4+1 Newline 5 Indent 10 Name 10+1 Newline 11 Dedent 12 Dedent 12 Name 12+1 Newline 13 End 13",
    ),
    (
        b"a\n  b\n    c\n  d",
        "Name 0+1 Newline 1 Indent 4 Name 4+1 Newline 5 Indent 10 Name 10+1 Newline 11 Dedent 14 Name 14+1 Newline 15 Dedent 15 End 15",
    ),
    (b"a\n  b\n    c\n   d", "bad indent at line 4"),
    (b"a\n  b\n c", "bad indent at line 3"),
    (b"a\n    b\n\n  \n  c", "bad indent at line 5"),
    (
        b"a\n b\n  c",
        "Name 0+1 Newline 1 Indent 3 Name 3+1 Newline 4 Indent 7 Name 7+1 Newline 8 Dedent 8 Dedent 8 End 8",
    ),
    (
        b"a\n  b\n  c",
        "Name 0+1 Newline 1 Indent 4 Name 4+1 Newline 5 Name 8+1 Newline 9 Dedent 9 End 9",
    ),
    (
        b"a\n  b\n# c\n  d",
        "Name 0+1 Newline 1 Indent 4 Name 4+1 Newline 5 Name 12+1 Newline 13 Dedent 13 End 13",
    ),
    (b"a\n  b\n   $", "bad byte at 9"),
    (b"a\n  b\n $", "bad indent at line 3"),
    (b" $", "bad indent at line 1"),
    (b"\x09x", "bad byte at 0"),
    (b"a\n \x09x", "bad byte at 3"),
    (b"a\n  b\n \x09x", "bad indent at line 3"),
];

const BRACKETS: [(&[u8], &str); 13] = [
    (b"(\n)", "Mark 0+1 Mark 2+1 Newline 3 End 3"),
    (
        b"f(1,\n  2)\n",
        "Name 0+1 Mark 1+1 Int 2+1 Mark 3+1 Int 7+1 Mark 8+1 Newline 9 End 10",
    ),
    (b"(\n# c\n\n )", "Mark 0+1 Mark 8+1 Newline 9 End 9"),
    (b"[ # c\n]", "Mark 0+1 Mark 6+1 Newline 7 End 7"),
    (b"( # c", "Mark 0+1 Newline 5 End 5"),
    (b"(\n", "Mark 0+1 Newline 2 End 2"),
    (b")\nx", "Mark 0+1 Newline 1 Name 2+1 Newline 3 End 3"),
    (
        b")(\n)\nx",
        "Mark 0+1 Mark 1+1 Mark 3+1 Newline 4 Name 5+1 Newline 6 End 6",
    ),
    (
        b"{[\n}\nx",
        "Mark 0+1 Mark 1+1 Mark 3+1 Name 5+1 Newline 6 End 6",
    ),
    (
        b"a\n  (\nb\n  )\nc",
        "Name 0+1 Newline 1 Indent 4 Mark 4+1 Name 6+1 Mark 10+1 Newline 11 Dedent 12 Name 12+1 Newline 13 End 13",
    ),
    (
        b"a\n  (",
        "Name 0+1 Newline 1 Indent 4 Mark 4+1 Newline 5 Dedent 5 End 5",
    ),
    (b"(#\n)#", "Mark 0+1 Mark 3+1 Newline 4 End 5"),
    (b"(\n\x09)", "bad byte at 2"),
];

const NAMES_AND_KEYWORDS: [(&[u8], &str); 8] = [
    (b"_", "Name 0+1 Newline 1 End 1"),
    (
        b"None True False",
        "Keyword 0+4 Keyword 5+4 Keyword 10+5 Newline 15 End 15",
    ),
    (b"none nonlocal", "Name 0+4 Keyword 5+8 Newline 13 End 13"),
    (
        b"print exec match",
        "Name 0+5 Name 6+4 Name 11+5 Newline 16 End 16",
    ),
    (
        b"iff in3 is_ _if",
        "Name 0+3 Name 4+3 Name 8+3 Name 12+3 Newline 15 End 15",
    ),
    (b"a1b_2", "Name 0+5 Newline 5 End 5"),
    (b"x.y", "Name 0+1 Mark 1+1 Name 2+1 Newline 3 End 3"),
    (
        b"and as assert async await break class continue def del elif else except finally for from global if import in is lambda nonlocal not or pass raise return try while with yield None True False",
        "Keyword 0+3 Keyword 4+2 Keyword 7+6 Keyword 14+5 Keyword 20+5 Keyword 26+5 Keyword 32+5 Keyword 38+8 Keyword 47+3 Keyword 51+3 Keyword 55+4 Keyword 60+4 Keyword 65+6 Keyword 72+7 Keyword 80+3 Keyword 84+4 Keyword 89+6 Keyword 96+2 Keyword 99+6 Keyword 106+2 Keyword 109+2 Keyword 112+6 Keyword 119+8 Keyword 128+3 Keyword 132+2 Keyword 135+4 Keyword 140+5 Keyword 146+6 Keyword 153+3 Keyword 157+5 Keyword 163+4 Keyword 168+5 Keyword 174+4 Keyword 179+4 Keyword 184+5 Newline 189 End 189",
    ),
];

const NUMBERS: [(&[u8], &str); 37] = [
    (b"0", "Int 0+1 Newline 1 End 1"),
    (b"00", "bad number at 0"),
    (b"01", "bad number at 0"),
    (b"0.0", "Fix 0+3 Newline 3 End 3"),
    (b"00.5", "bad number at 0"),
    (b"9223372036854775808", "Int 0+19 Newline 19 End 19"),
    (b"9223372036854775809", "bad number at 0"),
    (b"10000000000000000000", "bad number at 0"),
    (b"x = 18446744073709551617", "bad number at 4"),
    (b"10000000000", "Int 0+11 Newline 11 End 11"),
    (b"10000000000.0", "Fix 0+13 Newline 13 End 13"),
    (b"10000000000.000000000", "Fix 0+21 Newline 21 End 21"),
    (b"10000000000.000000001", "bad number at 0"),
    (b"9999999999.999999999", "Fix 0+20 Newline 20 End 20"),
    (b"10000000001.0", "bad number at 0"),
    (b"99999999999.5", "bad number at 0"),
    (b"1.123456789", "Fix 0+11 Newline 11 End 11"),
    (b"1.1234567890", "bad number at 0"),
    (b"1.", "bad number at 0"),
    (b"1.x", "bad number at 0"),
    (b"1.2.3", "bad number at 0"),
    (b"1..2", "bad number at 0"),
    (b"1_", "bad number at 0"),
    (b"1_000", "bad number at 0"),
    (b"1a", "bad number at 0"),
    (b"1.5e3", "bad number at 0"),
    (b"0x10", "bad number at 0"),
    (b"1if x", "bad number at 0"),
    (b".5", "bad number at 0"),
    (b"1 .5", "bad number at 2"),
    (b"a.1", "bad number at 1"),
    (b"x[0].5", "bad number at 4"),
    (b"..5", "bad number at 1"),
    (b"f(.5)", "bad number at 2"),
    (b"-5", "Mark 0+1 Int 1+1 Newline 2 End 2"),
    (b"12.50-3", "Fix 0+5 Mark 5+1 Int 6+1 Newline 7 End 7"),
    (b"1 2", "Int 0+1 Int 2+1 Newline 3 End 3"),
];

const TEXTS: [(&[u8], &str); 24] = [
    (b"''", "Text 0+2 Newline 2 End 2"),
    (b"'a\"b'", "Text 0+5 Newline 5 End 5"),
    (b"\"it's\"", "Text 0+6 Newline 6 End 6"),
    (b"'\\''", "Text 0+4 Newline 4 End 4"),
    (b"'\\\\'", "Text 0+4 Newline 4 End 4"),
    (b"'\\\"'", "Text 0+4 Newline 4 End 4"),
    (b"'# no comment'", "Text 0+14 Newline 14 End 14"),
    (b"'a''b'", "Text 0+3 Text 3+3 Newline 6 End 6"),
    (b"'a", "bad text at 0"),
    (b"x = 'a\nb'", "bad text at 4"),
    (b"'\\", "bad text at 0"),
    (b"'\\\n'", "bad text at 0"),
    (b"'\\n'", "bad text at 0"),
    (b"'\\x41'", "bad text at 0"),
    (b"'\\'", "bad text at 0"),
    (b"'''", "bad text at 2"),
    (b"('a\n')", "bad text at 1"),
    (b"'a\x09b'", "bad byte at 2"),
    (b"'\\\x09'", "bad byte at 2"),
    (b"'\x7f'", "bad byte at 1"),
    (b"'\xc3\xa9'", "bad byte at 1"),
    (b"'\\q\x09'", "bad text at 0"),
    (b"'\x09", "bad byte at 1"),
    (b"'\n\x09", "bad text at 0"),
];

const MARKS: [(&[u8], &str); 25] = [
    (b"a<=b", "Name 0+1 Mark 1+2 Name 3+1 Newline 4 End 4"),
    (b"<<=", "Mark 0+1 Mark 1+2 Newline 3 End 3"),
    (b"***", "Mark 0+2 Mark 2+1 Newline 3 End 3"),
    (b"**=", "Mark 0+2 Mark 2+1 Newline 3 End 3"),
    (b"//=", "Mark 0+2 Mark 2+1 Newline 3 End 3"),
    (b"/=", "Mark 0+1 Mark 1+1 Newline 2 End 2"),
    (b"%=", "Mark 0+1 Mark 1+1 Newline 2 End 2"),
    (b"===", "Mark 0+2 Mark 2+1 Newline 3 End 3"),
    (b"+=-=*=", "Mark 0+2 Mark 2+2 Mark 4+2 Newline 6 End 6"),
    (b"!=>=", "Mark 0+2 Mark 2+2 Newline 4 End 4"),
    (b"->", "Mark 0+1 Mark 1+1 Newline 2 End 2"),
    (b"<>", "Mark 0+1 Mark 1+1 Newline 2 End 2"),
    (
        b"{}[](),:.",
        "Mark 0+1 Mark 1+1 Mark 2+1 Mark 3+1 Mark 4+1 Mark 5+1 Mark 6+1 Mark 7+1 Mark 8+1 Newline 9 End 9",
    ),
    (b"!", "bad byte at 0"),
    (b"a ! = b", "bad byte at 2"),
    (b"x @ y", "bad byte at 2"),
    (b"a\\\nb", "bad byte at 1"),
    (b"a;b", "bad byte at 1"),
    (b"~x", "bad byte at 0"),
    (b"a&b", "bad byte at 1"),
    (b"`a", "bad byte at 0"),
    (b"a?", "bad byte at 1"),
    (b"^", "bad byte at 0"),
    (b"|", "bad byte at 0"),
    (b"$", "bad byte at 0"),
];

const BYTES_THAT_ARE_NOT_PRINTABLE: [(&[u8], &str); 8] = [
    (b"x\r\n", "bad byte at 1"),
    (b"x # caf\xc3\xa9", "bad byte at 7"),
    (b"# \x09", "bad byte at 2"),
    (b"#\x00", "bad byte at 1"),
    (b"\x00", "bad byte at 0"),
    (b"\xff", "bad byte at 0"),
    (b"a\n  # \x7f", "bad byte at 6"),
    (b"(# \x09\n)", "bad byte at 3"),
];

const THE_FIRST_TROUBLE: [(&[u8], &str); 4] = [
    (b"01 $", "bad number at 0"),
    (b"$ 01", "bad byte at 0"),
    (b"a\n b\n01\n", "bad number at 5"),
    (b"'a' 'b", "bad text at 4"),
];

/// Sources with the place of their first token `=`, or with their first trouble in front of it.
const FRONTS: [(&[u8], &str); 8] = [
    (b"ref k = 3", "6"),
    (b"k=", "1"),
    (b"k == 1", "6"),
    (b"k", "1"),
    (b"k = 'a", "2"),
    (b"k $ = 1", "bad byte at 2"),
    (b"k '=' = 01", "6"),
    (b"k *= 1 = 2", "7"),
];

#[test]
fn lines_indents_and_brackets_give_their_tokens(rt: HostRuntime) -> Result<(), Fail> {
    compare(&rt, rt.alloc(), Reader::Tokens, &BLANK_LINES_COMMENTS)?;
    compare(&rt, rt.alloc(), Reader::Tokens, &INDENTS)?;
    compare(&rt, rt.alloc(), Reader::Tokens, &BRACKETS)
}

#[test]
fn names_and_numbers_give_their_tokens(rt: HostRuntime) -> Result<(), Fail> {
    compare(&rt, rt.alloc(), Reader::Tokens, &NAMES_AND_KEYWORDS)?;
    compare(&rt, rt.alloc(), Reader::Tokens, &NUMBERS)
}

#[test]
fn texts_give_their_tokens(rt: HostRuntime) -> Result<(), Fail> {
    compare(&rt, rt.alloc(), Reader::Tokens, &TEXTS)
}

#[test]
fn marks_and_other_bytes_give_their_tokens_or_the_first_trouble(
    rt: HostRuntime,
) -> Result<(), Fail> {
    compare(&rt, rt.alloc(), Reader::Tokens, &MARKS)?;
    compare(
        &rt,
        rt.alloc(),
        Reader::Tokens,
        &BYTES_THAT_ARE_NOT_PRINTABLE,
    )?;
    compare(&rt, rt.alloc(), Reader::Tokens, &THE_FIRST_TROUBLE)
}

#[test]
fn a_front_ends_at_its_mark_whatever_stands_behind(rt: HostRuntime) -> Result<(), Fail> {
    compare(&rt, rt.alloc(), Reader::Front, &FRONTS)
}

#[test]
fn a_source_has_at_most_65536_bytes(rt: HostRuntime) -> Result<(), Fail> {
    let longest = vec![in rt.alloc(); b'x'; 65_536]?;
    let mut out = Vec::new(rt.alloc());
    push_tokens(rt.alloc(), &mut out, &longest)?;
    is(&rt, &out, "Name 0+65536 Newline 65536 End 65536");
    Ok(())
}

// Too long comes before any other trouble.
#[test]
fn a_longer_source_is_too_long(rt: HostRuntime) -> Result<(), Fail> {
    let longer = vec![in rt.alloc(); b'$'; 65_537]?;
    let mut out = Vec::new(rt.alloc());
    push_tokens(rt.alloc(), &mut out, &longer)?;
    is(&rt, &out, "too long");
    Ok(())
}
