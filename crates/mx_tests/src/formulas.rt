//! Formulas and parameter lists with the text that is printed for what they spell, or with their refusals, worked out by hand from
//! the rules.

use crate::said::{Reader, compare};
use std::test::Fail;

/// Formulas of cells, with parameters of all kinds.
const HEADS: [(&[u8], &str); 18] = [
    (b"() = 1", "() = 1\n"),
    (b"(t) = t", "(t) = t\n"),
    (b"(t,) = t", "(t) = t\n"),
    (b"(t, x=1) = t + x", "(t, x=1) = t + x\n"),
    (b"(x=-1, y=(1, 'a')) = x", "(x=-1, y=(1, \"a\")) = x\n"),
    (b"(x=1, y) = x", "unexpected at 7"),
    (b"(x, x) = 1", "unexpected at 4"),
    (b"(x, y, x=1) = 1", "unexpected at 7"),
    (b"(1) = 1", "unexpected at 1"),
    (b"() = ", "unexpected at 5"),
    (b"()", "unexpected at 2"),
    (b"", "unexpected at 0"),
    (b"() = {}", "unexpected at 5"),
    (b"() = 1 2", "unexpected at 7"),
    (b"() == 1", "unexpected at 3"),
    (b"() =\n1", "unexpected at 4"),
    (b"() = x.", "unexpected at 7"),
    (b"() = a < b = c", "unexpected at 11"),
];

/// Formulas that return one expression.
const ONE_LINE: [(&[u8], &str); 25] = [
    (b"() = a < b == c", "() = a < b == c\n"),
    (b"() = -2 ** 2", "() = -2 ** 2\n"),
    (b"() = (-2) ** 2", "() = (-2) ** 2\n"),
    (
        b"() = a if b else c if d else e",
        "() = a if b else c if d else e\n",
    ),
    (
        b"() = (a if b else c) if d else e",
        "() = (a if b else c) if d else e\n",
    ),
    (b"() = not not a", "() = not not a\n"),
    (b"() = a is None", "() = a is None\n"),
    (b"() = a is not None == b", "() = a is not None == b\n"),
    (b"() = a not in b", "() = a not in b\n"),
    (b"() = x[1, 2].y(3)", "() = x[1, 2].y(3)\n"),
    (b"() = f(x for x in y if z)", "() = f(x for x in y if z)\n"),
    (b"() = f(x for x in y, 1)", "unexpected at 19"),
    (b"() = (x)", "() = x\n"),
    (b"() = (x,)", "() = (x,)\n"),
    (b"() = ()", "() = ()\n"),
    (b"() = x, y", "unexpected at 6"),
    (b"() = 9223372036854775808", "unexpected at 5"),
    (b"() = a <", "unexpected at 8"),
    (b"() = a and b or c", "() = a and b or c\n"),
    (b"() = a // b % c", "() = a // b % c\n"),
    (b"() = f(1,)", "() = f(1)\n"),
    (b"() = 'a'", "() = \"a\"\n"),
    (b"() = a is 1", "unexpected at 10"),
    (b"() = x[]", "unexpected at 7"),
    (b"() = (a,,)", "unexpected at 8"),
];

/// Formulas of statements.
const BLOCKS: [(&[u8], &str); 33] = [
    (b"(): return 1", "() = 1\n"),
    (b"():\n  return 1", "() = 1\n"),
    (b"(): return", "():\n    return\n"),
    (b"(): pass", "():\n    pass\n"),
    (b"(): x = 1", "():\n    x = 1\n"),
    (
        b"():\n  x = 1\n  return x",
        "():\n    x = 1\n    return x\n",
    ),
    (
        b"():\n x += 1\n x -= 2\n x *= 3",
        "():\n    x += 1\n    x -= 2\n    x *= 3\n",
    ),
    (b"():", "unexpected at 3"),
    (b"():\n", "unexpected at 4"),
    (
        b"():\n  if x: return 1\n  return 2",
        "():\n    if x:\n        return 1\n    return 2\n",
    ),
    (
        b"():\n  if x:\n    pass\n  elif y: pass\n  elif z:\n    pass\n  else:\n    pass",
        "():\n    if x:\n        pass\n    elif y:\n        pass\n    elif z:\n        pass\n    else:\n        pass\n",
    ),
    (
        b"():\n  if x: pass\n  else: pass\n  elif y: pass",
        "unexpected at 32",
    ),
    (
        b"():\n  if x: pass\n  else: pass\n  else: pass",
        "unexpected at 32",
    ),
    (b"():\n  else: pass", "unexpected at 6"),
    (b"():\n  elif x: pass", "unexpected at 6"),
    (
        b"():\n  for i in t: pass",
        "():\n    for i in t:\n        pass\n",
    ),
    (
        b"():\n  for i in t:\n    x += i\n  return x",
        "():\n    for i in t:\n        x += i\n    return x\n",
    ),
    (b"():\n  for 1 in t: pass", "unexpected at 10"),
    (b"():\n  for i of t: pass", "unexpected at 12"),
    (b"():\n  return {}", "unexpected at 13"),
    (b"():\n  x == 1", "unexpected at 8"),
    (b"():\n  x", "unexpected at 7"),
    (b"():\n  1", "unexpected at 6"),
    (b"():\n  if x pass", "unexpected at 11"),
    (b"():\n  if x:\n  pass", "unexpected at 14"),
    (b"(): if x: pass", "unexpected at 4"),
    (b"():\n    pass\n  pass", "bad indent at line 3"),
    (b"(): pass pass", "unexpected at 9"),
    (b"():\n  x = {}", "unexpected at 10"),
    (b"():\n  lambda", "unexpected at 6"),
    (b"():\n  pass\n\n  # c\n  pass", "():\n    pass\n    pass\n"),
    // a bracket that closes none leaves the open indent as it is
    (
        b"(x):\n    y = )((((((((((((((((((((((((((((((((((((((((((((((((((((((((((((((((",
        "too nested at 77",
    ),
    (
        b"(x):\n    y = )(((((((((((((((((((((((((((((((((((((((((((((((((((((((((((((((",
        "unexpected at 13",
    ),
];

/// Formulas in odd spacing and parentheses, with their printed forms.
const PRINTED: [(&[u8], &str); 23] = [
    (b"(n)=n", "(n) = n\n"),
    (b"( n ) = ((n))", "(n) = n\n"),
    (
        b"(n) = n if n<2 else fib( n-1 )+fib(n-2)",
        "(n) = n if n < 2 else fib(n - 1) + fib(n - 2)\n",
    ),
    (b"(n) = 1+2-3", "(n) = 1 + 2 - 3\n"),
    (b"(n) = 1-(2-3)", "(n) = 1 - (2 - 3)\n"),
    (b"(n) = (1-2)-3", "(n) = (1 - 2) - 3\n"),
    (b"(n) = (2*n)+(3*n)", "(n) = 2 * n + 3 * n\n"),
    (b"(n) = 2*(n+3)*n", "(n) = 2 * (n + 3) * n\n"),
    (b"(n) = (2*3)*4", "(n) = (2 * 3) * 4\n"),
    (b"(n) = 2*(3*4)", "(n) = 2 * (3 * 4)\n"),
    (b"(n) = g((n+1)*2)", "(n) = g((n + 1) * 2)\n"),
    (b"(n) = g(h(n))*2", "(n) = g(h(n)) * 2\n"),
    (b"(x) = g(x if x<1 else 2)", "(x) = g(x if x < 1 else 2)\n"),
    (
        b"(n) = 1 if n<2 else (2 if n<3 else 4)",
        "(n) = 1 if n < 2 else (2 if n < 3 else 4)\n",
    ),
    (
        b"(n) = (1 if n<2 else 2)+1",
        "(n) = (1 if n < 2 else 2) + 1\n",
    ),
    (b"(n) = (a or b) and c", "(n) = (a or b) and c\n"),
    (b"(n) = not (a and b)", "(n) = not (a and b)\n"),
    (b"(n) = (not a) == b", "(n) = (not a) == b\n"),
    (b"(n) = (a < b) < c", "(n) = (a < b) < c\n"),
    (b"(n) = - - n", "(n) = --n\n"),
    (b"(n) = 2 ** -n ** 3", "(n) = 2 ** -n ** 3\n"),
    (b"(n) = (2 ** n) ** 3", "(n) = (2 ** n) ** 3\n"),
    (b"(n) = (a + b).c[1](2)", "(n) = (a + b).c[1](2)\n"),
];

/// Parameters of spaces.
const PARAMETERS: [(&[u8], &str); 23] = [
    (b"(x)", "(x)\n"),
    (b"(x, y=1)", "(x, y=1)\n"),
    (b"(x,)", "(x)\n"),
    (b"()", "unexpected at 1"),
    (b"(x) = y", "(x) = y\n"),
    (b"(x) = {}", "(x) = {}\n"),
    (
        b"(x) = {'refs': {'a': 1}, 'base': B}",
        "(x) = {\"refs\": {\"a\": 1}, \"base\": B}\n",
    ),
    (b"(x) = {'bases': B}", "(x) = {\"base\": B}\n"),
    (b"(x): return {'base': B}", "(x) = {\"base\": B}\n"),
    (b"(x) = {'refs': {'1a': 1}}", "unexpected at 16"),
    (b"(x) = {'base': B, 'bases': C}", "unexpected at 18"),
    (b"(x) = {'refs': {}, 'refs': {}}", "unexpected at 19"),
    (b"(x) = {'refs': {'a': 1, 'a': 2}}", "unexpected at 24"),
    (b"(x) = {'root': B}", "unexpected at 7"),
    (b"(x) = {'base' B}", "unexpected at 14"),
    (
        b"(x):\n  y = 1\n  return {'base': y}",
        "(x):\n    y = 1\n    return {\"base\": y}\n",
    ),
    (b"(x): y", "unexpected at 6"),
    (b"(x=1, y)", "unexpected at 7"),
    (b"(x, x)", "unexpected at 4"),
    (b"(x) y", "unexpected at 4"),
    (
        b"(x) = {'refs': {'a': 1,}, 'base': B,}",
        "(x) = {\"refs\": {\"a\": 1}, \"base\": B}\n",
    ),
    (b"x", "unexpected at 0"),
    (b"(x) = {} + 1", "unexpected at 9"),
];

/// Expressions, each shown as the formula that returns it.
const EXPRESSIONS: [(&[u8], &str); 3] = [
    (b"1 + x", "() = 1 + x\n"),
    (b"1 +", "unexpected at 3"),
    (b"1\n2", "unexpected at 2"),
];

#[test]
fn reads_formulas_or_tells_the_first_trouble(rt: HostRuntime) -> Result<(), Fail> {
    compare(&rt, rt.alloc(), Reader::Formula, &HEADS)?;
    compare(&rt, rt.alloc(), Reader::Formula, &ONE_LINE)
}

#[test]
fn reads_statements_or_tells_the_first_trouble(rt: HostRuntime) -> Result<(), Fail> {
    compare(&rt, rt.alloc(), Reader::Formula, &BLOCKS)
}

#[test]
fn prints_formulas_in_one_form(rt: HostRuntime) -> Result<(), Fail> {
    compare(&rt, rt.alloc(), Reader::Formula, &PRINTED)
}

#[test]
fn reads_parameters_or_tells_the_first_trouble(rt: HostRuntime) -> Result<(), Fail> {
    compare(&rt, rt.alloc(), Reader::Parameters, &PARAMETERS)
}

#[test]
fn reads_expressions(rt: HostRuntime) -> Result<(), Fail> {
    compare(&rt, rt.alloc(), Reader::Expression, &EXPRESSIONS)
}
