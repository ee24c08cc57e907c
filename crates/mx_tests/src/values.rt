//! Sources with what they spell, or with their refusals, worked out by hand from the rules.

use crate::said::{Reader, compare};
use std::test::Fail;

/// Numbers.
const NUMBERS: [(&[u8], &str); 20] = [
    (b"1", "1"),
    (b"0", "0"),
    (b"-1", "-1"),
    (b"- 1", "-1"),
    (b"9223372036854775807", "9223372036854775807"),
    (b"9223372036854775808", "unexpected at 0"),
    (b"-9223372036854775808", "-9223372036854775808"),
    (b"9223372036854775809", "bad number at 0"),
    (b"(1, 9223372036854775808)", "unexpected at 4"),
    (b"01", "bad number at 0"),
    (b"1.5", "1.5"),
    (b"-1.5", "-1.5"),
    (b"0.000000001", "0.000000001"),
    (b"10000000000.0", "10000000000.0"),
    (b"-10000000000.0", "-10000000000.0"),
    (b"1.0", "1.0"),
    (b"-0.0", "0.0"),
    (b"12.345", "12.345"),
    (b"1.", "bad number at 0"),
    (b"1 .5", "bad number at 2"),
];

/// Other literals.
const LITERALS: [(&[u8], &str); 21] = [
    (b"\"a\"", "\"a\""),
    (b"'a'", "\"a\""),
    (b"\"\"", "\"\""),
    (b"'a\\'b'", "\"a'b\""),
    (b"\"a\\\\b\"", "\"a\\\\b\""),
    (b"\"a # b\"", "\"a # b\""),
    (b"'a", "bad text at 0"),
    (b"None", "None"),
    (b"True", "True"),
    (b"False", "False"),
    (b"true", "unexpected at 0"),
    (b"()", "()"),
    (b"(1,)", "(1,)"),
    (b"(1, 2)", "(1, 2)"),
    (b"(1, 2,)", "(1, 2)"),
    (b"((1,), (), \"x\")", "((1,), (), \"x\")"),
    (b"(1,\n 2)", "(1, 2)"),
    (b"(1)", "unexpected at 2"),
    (b"(,)", "unexpected at 1"),
    (b"(1,,)", "unexpected at 3"),
    (b"(1 2)", "unexpected at 3"),
];

/// What is no literal, and what may stand around one.
const BAD_LITERALS: [(&[u8], &str); 22] = [
    (b"(1, 2", "unexpected at 5"),
    (b"(", "unexpected at 1"),
    (b")", "unexpected at 0"),
    (b"", "unexpected at 0"),
    (b"x", "unexpected at 0"),
    (b"lambda", "unexpected at 0"),
    (b"{}", "unexpected at 0"),
    (b"[1]", "unexpected at 0"),
    (b"-", "unexpected at 1"),
    (b"--1", "unexpected at 1"),
    (b"+1", "unexpected at 0"),
    (b"-None", "unexpected at 1"),
    (b"-(1,)", "unexpected at 1"),
    (b"-\"a\"", "unexpected at 1"),
    (b"1 2", "unexpected at 2"),
    (b"(1,)(2,)", "unexpected at 4"),
    (b"1\n", "1"),
    (b"1\n2", "unexpected at 2"),
    (b"# c\n1", "1"),
    (b"1 # c", "1"),
    (b" 1", "bad indent at line 1"),
    (b"a$", "bad byte at 1"),
];

/// Addresses.
const ADDRESSES: [(&[u8], &str); 24] = [
    (b"A", "A"),
    (b"_a", "_a"),
    (b"A.B", "A.B"),
    (b"A . B", "A.B"),
    (b"A[1]", "A[1]"),
    (b"A[1, 2,]", "A[1, 2]"),
    (b"A[1].B[(1,)].C", "A[1].B[(1,)].C"),
    (b"A[-1]", "A[-1]"),
    (b"", "unexpected at 0"),
    (b".A", "unexpected at 0"),
    (b"if", "unexpected at 0"),
    (b"A.", "unexpected at 2"),
    (b"A.1", "bad number at 1"),
    (b"A[]", "unexpected at 2"),
    (b"A[,]", "unexpected at 2"),
    (b"A[1][2]", "unexpected at 4"),
    (b"A[x]", "unexpected at 2"),
    (b"A[1", "unexpected at 3"),
    (b"A[1)", "unexpected at 3"),
    (b"A B", "unexpected at 2"),
    (b"A(1)", "unexpected at 1"),
    (b"A.B.", "unexpected at 4"),
    (b"A.\nB", "unexpected at 2"),
    (b"A[1\n].B", "A[1].B"),
];

/// Nodes. Cells are shown with their space.
const NODES: [(&[u8], &str); 30] = [
    (b"f()", "Main.f()"),
    (b"f(1)", "Main.f(1)"),
    (b"f(1,)", "Main.f(1)"),
    (b"Main.f()", "Main.f()"),
    (b"A.f(1, 2)", "A.f(1, 2)"),
    (b"A[1].f()", "A[1].f()"),
    (b"A.B[2].f((1,))", "A.B[2].f((1,))"),
    (b"f(1.0)", "Main.f(1.0)"),
    (b"f(-1, \"x\")", "Main.f(-1, \"x\")"),
    (b"f(())", "Main.f(())"),
    (b"A[1]", "A[1]"),
    (b"A.B[1, 2]", "A.B[1, 2]"),
    (b"A[1].B[2]", "A[1].B[2]"),
    (b"", "unexpected at 0"),
    (b"A", "unexpected at 1"),
    (b"A.B", "unexpected at 3"),
    (b"A[1].B", "unexpected at 6"),
    (b"A.", "unexpected at 2"),
    (b"A[]", "unexpected at 2"),
    (b"A[1][2]", "unexpected at 4"),
    (b"f(1)(2)", "unexpected at 4"),
    (b"f(1).g", "unexpected at 4"),
    (b"A[1](2)", "unexpected at 4"),
    (b"A.f(1)[2]", "unexpected at 6"),
    (b"f(,)", "unexpected at 2"),
    (b"f(1 2)", "unexpected at 4"),
    (b"f(x)", "unexpected at 2"),
    (b"f(", "unexpected at 2"),
    (b"1", "unexpected at 0"),
    (b"f(9223372036854775808)", "unexpected at 2"),
];

#[test]
fn reads_literals_or_tells_the_first_trouble(rt: HostRuntime) -> Result<(), Fail> {
    compare(&rt, rt.alloc(), Reader::Literal, &NUMBERS)?;
    compare(&rt, rt.alloc(), Reader::Literal, &LITERALS)
}

#[test]
fn tells_the_first_trouble_of_what_is_no_literal(rt: HostRuntime) -> Result<(), Fail> {
    compare(&rt, rt.alloc(), Reader::Literal, &BAD_LITERALS)
}

#[test]
fn reads_addresses_or_tells_the_first_trouble(rt: HostRuntime) -> Result<(), Fail> {
    compare(&rt, rt.alloc(), Reader::Address, &ADDRESSES)
}

#[test]
fn reads_nodes_or_tells_the_first_trouble(rt: HostRuntime) -> Result<(), Fail> {
    compare(&rt, rt.alloc(), Reader::Node, &NODES)
}
