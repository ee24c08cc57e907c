//! The texts of commands with what they say, or with their refusals, worked out by hand from the rules. A command is shown in one
//! spacing, with the path of its space and its printed formula; a reference of the model has no path.

use crate::said::{Reader, compare, is};
use crate::shown::push_command_by;
use mx_print::append::push;
use mx_words::table::{CommandWord, takes_lines};
use std::test::Fail;

/// Definitions and questions.
const COMMANDS: [(&[u8], &str); 23] = [
    (b"cells f(x) = x", "cells Main.f(x) = x"),
    (b"  cells f(x) = x", "cells Main.f(x) = x"),
    (b"cells   f  (x) = x", "cells Main.f(x) = x"),
    (b"cells A.f(x) = x", "cells A.f(x) = x"),
    (b"cells A . B.f(x) = x", "cells A.B.f(x) = x"),
    (b"cells f() = 1", "cells Main.f() = 1"),
    (
        b"cells f(x, k=2, on=True) = x*k",
        "cells Main.f(x, k=2, on=True) = x * k",
    ),
    (b"cells f(x) = g(x, 1)", "cells Main.f(x) = g(x, 1)"),
    (b"cells abs(x) = x", "cells Main.abs(x) = x"),
    (b"cells cells(x) = x", "cells Main.cells(x) = x"),
    (b"cells f # n (x) = x", "cells Main.f(x) = x"),
    (b"cells f\n (x) = x\n# a note", "cells Main.f(x) = x"),
    (b"def f(x): return x", "cells Main.f(x) = x"),
    (b"def f(x) = x", "cells Main.f(x) = x"),
    (
        b"def A.f(x):\n  y = x\n  y += 1\n  return y",
        "cells A.f(x):\n    y = x\n    y += 1\n    return y",
    ),
    (
        b"def f(x):\n    if x: return 1\n    else:\n        return 2",
        "cells Main.f(x):\n    if x:\n        return 1\n    else:\n        return 2",
    ),
    (b"eval f(1)", "eval Main.f(1)"),
    (b"   eval   f(1)  ", "eval Main.f(1)"),
    (b"eval A.B.f(-1, True)", "eval A.B.f(-1, True)"),
    (b"eval f() # a note", "eval Main.f()"),
    (b"eval A[1, 2].f(3)", "eval A[1, 2].f(3)"),
    (b"eval A[1]", "eval A[1]"),
    (b"def f(x):\n    return", "cells Main.f(x):\n    return"),
];

/// Commands with names or a node behind their word.
const NAMED: [(&[u8], &str); 24] = [
    (b"space S", "space S"),
    (b"space A.B", "space A.B"),
    (b"  space A.B.C # a note", "space A.B.C"),
    (b"unspace S", "unspace S"),
    (b"unspace A.B", "unspace A.B"),
    (b"unparams A.B", "unparams A.B"),
    (b"order S", "order S"),
    (b"order A . B", "order A.B"),
    (b"uncells f", "uncells Main.f"),
    (b"uncells A.B.f", "uncells A.B.f"),
    (b"allow f", "allow Main.f"),
    (b"allow A.f", "allow A.f"),
    (b"disallow A.f", "disallow A.f"),
    (b"unref k", "unref Main.k"),
    (b"unref A.k", "unref A.k"),
    (b"precedents A.f(1)", "precedents A.f(1)"),
    (b"succs f('a')", "succs Main.f(\"a\")"),
    (b"precedents S[None]", "precedents S[None]"),
    (b"space", "bad form at 5"),
    (b"space A.", "bad form at 8"),
    (b" space A B", "bad form at 9"),
    (b"unref A[1]", "bad form at 7"),
    (b"order S $", "formula: bad byte at 8"),
    (b"succs f", "formula: unexpected at 1"),
];

/// The model's references, nodes with a word of their own, and numbers.
const SMALL: [(&[u8], &str); 26] = [
    (b"unglobal k", "unref k"),
    (b" unglobal k # a note", "unref k"),
    (b"unglobal", "bad form at 8"),
    (b"unglobal A.k", "bad form at 10"),
    (b"unglobal 'k", "formula: bad text at 9"),
    (b"held", "held"),
    (b"  held  ", "held"),
    (b"held # note", "held"),
    (b"held #\x01", "formula: bad byte at 1"),
    (b"held f(1)", "held Main.f(1)"),
    (b"held A[1].f('a') # note", "held A[1].f(\"a\")"),
    (b"held A[2]", "held A[2]"),
    (b" held f", "formula: unexpected at 1"),
    (b"held $", "formula: bad byte at 0"),
    (b"uninput f(1)", "uninput Main.f(1)"),
    (b"uninput A[1].f(1, None)", "uninput A[1].f(1, None)"),
    (b"uninput S[1]", "bad form at 12"),
    (b"  uninput   S[1]  # x", "bad form at 18"),
    (b"uninput S[1] $", "formula: bad byte at 5"),
    (b"uninput", "formula: unexpected at 0"),
    (b"limit 0", "limit 0"),
    (b"limit 4294967295", "limit 4294967295"),
    (b"limit 4294967296", "bad form at 6"),
    (b" limit -1", "bad form at 7"),
    (b"limit 1.0", "bad form at 6"),
    (b"limit 1 2", "bad form at 8"),
];

/// The parameters of spaces.
const PARAMETERS: [(&[u8], &str); 13] = [
    (b"params S(x)", "params S(x)"),
    (b"params A.B (x, k=2)", "params A.B(x, k=2)"),
    (b"params S(x) = {'base': A}", "params S(x) = {\"base\": A}"),
    (b"params S(x):\n  return {}", "params S(x) = {}"),
    (b"params S # n\n (x)", "params S(x)"),
    (b"params S()", "formula: unexpected at 1"),
    (b"params S(x) = ", "formula: unexpected at 6"),
    (b"params S(x", "formula: unexpected at 2"),
    (b"params S", "bad form at 8"),
    (b"params (x)", "bad form at 7"),
    (b" params S.(x) = $", "bad form at 10"),
    (b"params S$(x)", "formula: bad byte at 8"),
    (b"params S[1](x)", "bad form at 8"),
];

/// Inputs: a node, `=` and a literal.
const INPUTS: [(&[u8], &str); 20] = [
    (b"input f(1) = 3", "input Main.f(1) = 3"),
    (
        b"input A.f('=', (1, 2)) = ('a', -0.5)",
        "input A.f(\"=\", (1, 2)) = (\"a\", -0.5)",
    ),
    (b"input f(1)=None # note", "input Main.f(1) = None"),
    (b"input f(\"a\\\"=\")  =  1", "input Main.f(\"a\\\"=\") = 1"),
    (b"input f(1) == 3", "formula: unexpected at 0"),
    (b"input f(1) =", "formula: unexpected at 0"),
    (b"input f(1) = 3 4", "formula: unexpected at 2"),
    (b"input f(1) = $", "formula: bad byte at 0"),
    (b"input f(1) = x", "formula: unexpected at 0"),
    (b"input = 3", "formula: unexpected at 0"),
    (b"input", "formula: unexpected at 0"),
    (b"input f = 3", "formula: unexpected at 1"),
    (b"input f(1 = 3", "formula: unexpected at 4"),
    (b"input f(1) 2 = $", "formula: unexpected at 5"),
    (b"input f('1 = 3", "formula: bad text at 2"),
    (b"input f(1)", "bad form at 10"),
    (b"  input f(1) # n", "bad form at 13"),
    (b"input S[1] = 1", "bad form at 11"),
    (b" input  S[1]  = $", "bad form at 14"),
    (b"input S[1]", "bad form at 10"),
];

/// Tables from files: a name, and the name of a file, which is no tokens. How long the name of a table may be is tested with the edit.
const TABLES: [(&[u8], &str); 41] = [
    (b"table t t.csv", "table t from t.csv"),
    (b"  table   t   t.csv  ", "table t from t.csv"),
    (b"table t a/b-1/c_2.CSV", "table t from a/b-1/c_2.CSV"),
    (b"table t t", "table t from t"),
    (b"table table table", "table table from table"),
    (b"table t ...", "table t from ..."),
    (b"table _ t.csv", "table _ from t.csv"),
    (b"table t.csv", "table t from .csv"),
    (b"table t-u", "table t from -u"),
    (
        b"table tttttttttttttttttttttttttttttttttttttttttttttttttttttttttttttttt t.csv",
        "table tttttttttttttttttttttttttttttttttttttttttttttttttttttttttttttttt from t.csv",
    ),
    (
        b"table ttttttttttttttttttttttttttttttttttttttttttttttttttttttttttttttttt t.csv",
        "table ttttttttttttttttttttttttttttttttttttttttttttttttttttttttttttttttt from t.csv",
    ),
    (
        b"table t fffffffffffffffffffffffffffffffffffffffffffffffffffffffffffffff/fffffffffffffffffffffffffffffffffffffffffffffffffffffffffffffff/fffffffffffffffffffffffffffffffffffffffffffffffffffffffffffffff/fffffffffffffffffffffffffffffffffffffffffffffffffffffffffffffff",
        "table t from fffffffffffffffffffffffffffffffffffffffffffffffffffffffffffffff/fffffffffffffffffffffffffffffffffffffffffffffffffffffffffffffff/fffffffffffffffffffffffffffffffffffffffffffffffffffffffffffffff/fffffffffffffffffffffffffffffffffffffffffffffffffffffffffffffff",
    ),
    (
        b"table t fffffffffffffffffffffffffffffffffffffffffffffffffffffffffffffff/fffffffffffffffffffffffffffffffffffffffffffffffffffffffffffffff/fffffffffffffffffffffffffffffffffffffffffffffffffffffffffffffff/ffffffffffffffffffffffffffffffffffffffffffffffffffffffffffffffff",
        "bad form at 8",
    ),
    (b"table", "bad form at 5"),
    (b"table  ", "bad form at 7"),
    (b"table t", "bad form at 7"),
    (b" table t  ", "bad form at 10"),
    (b"table t t.csv # note", "bad form at 8"),
    (b"table t a b", "bad form at 8"),
    (b"  table  t  ../t.csv", "bad form at 12"),
    (b"table t .", "bad form at 8"),
    (b"table t ./t.csv", "bad form at 8"),
    (b"table t a/../b", "bad form at 8"),
    (b"table t /t.csv", "bad form at 8"),
    (b"table t a//b", "bad form at 8"),
    (b"table t a/", "bad form at 8"),
    (b"table t a\\b", "bad form at 8"),
    (b"table t \"t.csv\"", "bad form at 8"),
    (b"table t \xc3\xa9.csv", "bad form at 8"),
    (b"table t[1] t.csv", "bad form at 7"),
    (b"table A.t f", "bad form at 7"),
    (b"table t\"x\"", "bad form at 7"),
    (b"table t\tf", "bad form at 7"),
    (b"table 5 t.csv", "bad form at 6"),
    (b"table 't' $", "bad form at 6"),
    (b"table if t.csv", "bad form at 6"),
    (b"table \"t\" f", "bad form at 6"),
    (b"table 1x f", "formula: bad number at 6"),
    (b" table 07 t.csv", "formula: bad number at 7"),
    (b"tables t t.csv", "unknown word"),
    (b"table#t f", "unknown word"),
];

/// References of spaces and of the model, and bases.
const REFERENCES: [(&[u8], &str); 40] = [
    (b"ref k = 3", "ref Main.k = 3"),
    (b"ref A.B.k=-1.5", "ref A.B.k = -1.5"),
    (b"ref k = ('a', None) # n", "ref Main.k = (\"a\", None)"),
    (b"ref k = table mort", "ref Main.k = table mort"),
    (b"ref A.k = to B.C", "ref A.k = to B.C"),
    (b"ref A.k = abs B # n", "ref A.k = abs B"),
    (b"ref k = to . B", "bad form at 11"),
    (b"ref k = to", "bad form at 10"),
    (b"ref k = to#x", "bad form at 10"),
    (b"ref k = table A.b", "bad form at 15"),
    (b"ref k = to B C", "bad form at 13"),
    (b"ref k = to B[1]", "bad form at 12"),
    (b"ref k = totals", "formula: unexpected at 0"),
    (b"ref k = 3 4", "formula: unexpected at 2"),
    (b"ref k =", "formula: unexpected at 0"),
    (b"ref k == 1", "bad form at 6"),
    (b"  ref k.", "bad form at 8"),
    (b"ref k", "bad form at 5"),
    (b"ref", "bad form at 3"),
    (b"ref = 3", "bad form at 4"),
    (b"ref k[1] = 3", "bad form at 5"),
    (b"ref A..k = $", "bad form at 6"),
    (b"ref A..k = to $", "formula: bad byte at 14"),
    (b"ref A$k = 1", "formula: bad byte at 5"),
    (b"ref k = $", "formula: bad byte at 0"),
    (b"ref k = 'a", "formula: bad text at 0"),
    (b"ref (k = 1", "bad form at 4"),
    (b"global k = 3", "ref k = 3"),
    (b"global k = table t", "ref k = table t"),
    (b"global k = to A", "ref k = to A"),
    (b" global A.k = 3", "bad form at 9"),
    (b"global = 3", "bad form at 7"),
    (b"global k = x", "formula: unexpected at 0"),
    (b"bases A", "bases A:"),
    (b"bases A.B: C", "bases A.B: C"),
    (b"bases A : B.C,D , E # n", "bases A: B.C, D, E"),
    (b"bases A:", "bad form at 8"),
    (b"bases A: B,", "bad form at 11"),
    (b"bases A B", "bad form at 8"),
    (b"bases A: B: $", "formula: bad byte at 12"),
];

/// Clearings of all, of spaces, of cells and of nodes.
const CLEARINGS: [(&[u8], &str); 26] = [
    (b"clear all", "clear all"),
    (b"  clear  all # n", "clear all"),
    (b"clear", "bad form at 5"),
    (b"clear some", "bad form at 6"),
    (b"clear all x", "bad form at 10"),
    (b"clear 'a", "formula: bad text at 6"),
    (b"clear # node f(1)", "bad form at 6"),
    (b"clear nodes f(1)", "bad form at 6"),
    (b"clear space A", "clear space A"),
    (b"clear space A[1, (2,)].B", "clear space A[1, (2,)].B"),
    (b"clear space", "bad form at 11"),
    (b" clear space A.", "bad form at 15"),
    (b"clear space A[x]", "bad form at 14"),
    (b"clear space A[", "bad form at 14"),
    (b"clear space A b $", "formula: bad byte at 16"),
    (b"clear cells f", "clear cells Main.f"),
    (b"clear cells A[1].B.f", "clear cells A[1].B.f"),
    (b"clear cells A[1]", "bad form at 16"),
    (b"  clear cells A[1] # n", "bad form at 19"),
    (b"clear cells f(1)", "bad form at 13"),
    (b"clear node f(1)", "clear node Main.f(1)"),
    (b"clear node  S[1] # n", "clear node S[1]"),
    (b" clear node f", "formula: unexpected at 1"),
    (b"clear node", "formula: unexpected at 0"),
    (b"clear node(1)", "formula: unexpected at 0"),
    (b"clear node $", "formula: bad byte at 0"),
];

/// Unknown words, and tokens that no form of a head allows.
const MISPLACED: [(&[u8], &str); 20] = [
    (b"", "unknown word"),
    (b"evall f(1)", "unknown word"),
    (b"eval(f)", "unknown word"),
    (b"Eval f(1)", "unknown word"),
    (b"held#x", "unknown word"),
    (b"cells(x) = x", "unknown word"),
    (b"cells", "bad form at 5"),
    (b"cells f", "bad form at 7"),
    (b"def f", "bad form at 5"),
    (b"cells (x) = x", "bad form at 6"),
    (b"cells .f(x) = x", "bad form at 6"),
    (b"cells f.(x) = x", "bad form at 8"),
    (b"   cells f.(x) = x", "bad form at 11"),
    (b"cells f g(x) = x", "bad form at 8"),
    (b"cells 7(x) = x", "bad form at 6"),
    (b"cells f[1](x) = x", "bad form at 7"),
    (b"def if(x) = x", "bad form at 4"),
    (b"cells\n f(x) = x", "bad form at 5"),
    (b"cells f\n g(x) = x", "bad form at 9"),
    (b"cells f.(x) = x +", "bad form at 8"),
];

/// Heads, formulas and nodes that are refused.
const TROUBLES: [(&[u8], &str); 24] = [
    (b"cells f$(x) = x", "formula: bad byte at 7"),
    (b"  cells f$(x) = x +", "formula: bad byte at 9"),
    (b" cells 07(x) = x", "formula: bad number at 7"),
    (b"cells 'f(x) = x", "formula: bad text at 6"),
    (b"cells f\n  a\n b(x) = x", "formula: bad indent at line 3"),
    (b"cells f(x) = ", "formula: unexpected at 6"),
    (b"  cells f(x) = x +", "formula: unexpected at 9"),
    (b"cells f(x", "formula: unexpected at 2"),
    (b"cells f(x, x) = x", "formula: unexpected at 4"),
    (b"cells f(x) = x\n  y", "formula: unexpected at 10"),
    (b"cells f(x) = 'a", "formula: bad text at 6"),
    (b"cells f(x) = 1 $", "formula: bad byte at 8"),
    (
        b"def f(x):\n    if x:\n  return 1",
        "formula: bad indent at line 3",
    ),
    (
        b"cells f(x) = g(g(g(g(g(g(g(g(g(x for a in x) for a in x) for a in x) for a in x) for a in x) for a in x) for a in x) for a in x) for a in x)",
        "formula: too many loops",
    ),
    (b"cells f(x) = x / ", "formula: unexpected at 10"),
    (b"eval", "formula: unexpected at 0"),
    (b"eval  ", "formula: unexpected at 0"),
    (b"eval f", "formula: unexpected at 1"),
    (b"  eval   f(1", "formula: unexpected at 3"),
    (b"eval f(x)", "formula: unexpected at 2"),
    (b"eval f(1) 2", "formula: unexpected at 5"),
    (b"eval f(07)", "formula: bad number at 2"),
    (b"eval f(1)$", "formula: bad byte at 4"),
    (b"cells f(x) = {}", "formula: unexpected at 6"),
];

#[test]
fn a_text_says_a_command(rt: HostRuntime) -> Result<(), Fail> {
    compare(&rt, rt.alloc(), Reader::Command, &COMMANDS)
}

#[test]
fn names_and_nodes_stand_behind_their_words(rt: HostRuntime) -> Result<(), Fail> {
    compare(&rt, rt.alloc(), Reader::Command, &NAMED)
}

#[test]
fn small_forms_stand_behind_their_words(rt: HostRuntime) -> Result<(), Fail> {
    compare(&rt, rt.alloc(), Reader::Command, &SMALL)
}

#[test]
fn spaces_get_parameters(rt: HostRuntime) -> Result<(), Fail> {
    compare(&rt, rt.alloc(), Reader::Command, &PARAMETERS)
}

#[test]
fn an_input_is_a_node_and_a_literal(rt: HostRuntime) -> Result<(), Fail> {
    compare(&rt, rt.alloc(), Reader::Command, &INPUTS)
}

#[test]
fn a_table_is_a_name_and_a_file(rt: HostRuntime) -> Result<(), Fail> {
    compare(&rt, rt.alloc(), Reader::Command, &TABLES)
}

#[test]
fn references_and_bases_name_their_targets(rt: HostRuntime) -> Result<(), Fail> {
    compare(&rt, rt.alloc(), Reader::Command, &REFERENCES)
}

#[test]
fn clearings_name_what_they_drop(rt: HostRuntime) -> Result<(), Fail> {
    compare(&rt, rt.alloc(), Reader::Command, &CLEARINGS)
}

#[test]
fn a_word_and_a_head_are_refused_at_their_places(rt: HostRuntime) -> Result<(), Fail> {
    compare(&rt, rt.alloc(), Reader::Command, &MISPLACED)
}

#[test]
fn a_formula_is_refused_at_its_first_trouble(rt: HostRuntime) -> Result<(), Fail> {
    compare(&rt, rt.alloc(), Reader::Command, &TROUBLES)
}

const EVAL_AND_DEF: [CommandWord; 2] = [CommandWord::Eval, CommandWord::Def];

#[test]
fn a_reader_takes_its_own_words_alone(rt: HostRuntime) -> Result<(), Fail> {
    let mut out = Vec::new(rt.alloc());
    push_command_by(rt.alloc(), &mut out, &EVAL_AND_DEF, b"def f(x) = x")?;
    push(&mut out, b"; ")?;
    push_command_by(rt.alloc(), &mut out, &EVAL_AND_DEF, b"cells f(x) = x")?;
    is(&rt, &out, "cells Main.f(x) = x; unknown word");
    Ok(())
}

#[test]
fn lines_behind_a_command_belong_to_some_words(rt: HostRuntime) {
    assert!(rt; takes_lines(&EVAL_AND_DEF, b"def f(x):"));
    assert!(rt; takes_lines(&EVAL_AND_DEF, b"def"));
    assert!(rt; !takes_lines(&EVAL_AND_DEF, b"cells f(x) ="));
    assert!(rt; !takes_lines(&EVAL_AND_DEF, b"eval f(1)"));
    assert!(rt; takes_lines(&[CommandWord::Params], b"params S(x)"));
}
