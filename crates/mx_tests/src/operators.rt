//! Items of values that have none, which no formula asks an operator for, and the names of builtins. What operators give
//! is compared with Python by tools/operator_vectors.py.

use crate::said::{Reader, compare};
use mx_ops::apply::apply;
use mx_ops::builtin::{Builtin, builtin_of};
use mx_ops::op::OpRefusal;
use mx_parse::parse_literal;
use mx_print::append::push;
use mx_print::value::push_value;
use mx_syntax::op::Op;
use mx_value::fault::FaultKind;
use mx_value::value::Value;
use std::alloc::{AllocError, Global};
use std::test::Fail;

const ITEMS: [(&[u8], &str); 6] = [
    (b"(5, 0.0)", "TypeMismatch"),
    (b"(5, \"a\")", "TypeMismatch"),
    (b"(5, None)", "TypeMismatch"),
    (b"(None, 0.0)", "TypeMismatch"),
    (b"(None, \"a\")", "TypeMismatch"),
    (b"(None, None)", "TypeMismatch"),
];

fn push_indexed(alloc: Global, out: &mut Vec<u8>, operands: &[Value]) -> Result<(), AllocError> {
    match apply(alloc, Op::Index, operands) {
        Ok(value) => push_value(out, &value),
        Err(OpRefusal::Fault(FaultKind::TypeMismatch)) => push(out, b"TypeMismatch"),
        Err(OpRefusal::Fault(_)) => push(out, b"another fault"),
        Err(OpRefusal::NoMemory) => Err(AllocError),
    }
}

/// The item of a value at a place, which are two literals.
pub(crate) fn push_item(alloc: Global, out: &mut Vec<u8>, text: &[u8]) -> Result<(), AllocError> {
    match parse_literal(alloc, text) {
        Ok(Value::Tup(operands)) => push_indexed(alloc, out, operands.as_slice()),
        _ => push(out, b"no operands"),
    }
}

#[test]
fn a_value_without_items_gives_none(rt: HostRuntime) -> Result<(), Fail> {
    compare(&rt, rt.alloc(), Reader::Item, &ITEMS)
}

#[test]
fn builtins_are_found_by_their_names(rt: HostRuntime) {
    assert!(rt; builtin_of(b"nroot") == Some(Builtin::Nroot));
    assert!(rt; builtin_of(b"tuple") == Some(Builtin::Tuple));
    assert!(rt; builtin_of(b"Tuple").is_none());
    assert!(rt; builtin_of(b"").is_none());
    assert!(rt; Builtin::Int.op() == Op::Int);
}
