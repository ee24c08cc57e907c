//! Why an evaluation gave no value.
ghost use Rattle.std.specs.Prelude.{◌≡◌, ◌≢◌, ◌++◌, map, codes, OnOk, IfOk};
ghost use Rattle.mx_print.specs.Texts.{separated};
ghost use Rattle.mx_print.specs.Values.{node_text};
ghost use Rattle.mx_text.specs.Evaluation as spec;

use mx_print::append::{push, push_number};
use mx_print::value::push_node;
use mx_value::fault::FaultKind;
use mx_value::node::Node;
use mx_value::refusal::EvalRefusal;
use std::alloc::{AllocError, Global};

fn fault_text(kind: FaultKind) -> &'static [u8]
    ensures { result.now ≡ spec.fault_text kind }
{
    match kind {
        FaultKind::ZeroDivision => b"ZeroDivision",
        FaultKind::Overflow => b"Overflow",
        FaultKind::TypeMismatch => b"TypeMismatch",
        FaultKind::NoIndex => b"NoIndex",
        FaultKind::Domain => b"Domain",
        FaultKind::TooLarge => b"TooLarge",
        FaultKind::NoName => b"NoName",
        FaultKind::NotCallable => b"NotCallable",
        FaultKind::WrongCountInside => b"WrongCountInside",
        FaultKind::NoneReturned => b"NoneReturned",
        FaultKind::UnsetLocal => b"UnsetLocal",
        FaultKind::BadItem => b"BadItem",
    }
}

/// Adds the nodes of a ring, the first one again at the end.
fn push_ring(out: &mut Vec<u8>, nodes: &[Node]) -> Result<(), AllocError>
    ensures { OnOk result (out.new.items ≡ out.old.items ++ spec.ring_text nodes.now) }
{
    push(out, b"ring ")?;
    push_arrows(out, nodes)?;
    match nodes {
        [] => Ok(()),
        [first, ..] => {
            push(out, b" -> ")?;
            push_node(out, first)
        }
    }
}

/// Adds nodes with arrows between them.
fn push_arrows(out: &mut Vec<u8>, nodes: &[Node]) -> Result<(), AllocError>
    ensures { OnOk result
        (out.new.items ≡ out.old.items ++ separated (codes " -> ") (map node_text nodes.now)) }
{
    for (i, node) in nodes.iter().enumerate() {
        if i > 0 {
            push(out, b" -> ")?;
        }
        push_node(out, node)?;
    }
    Ok(())
}

/// Adds a fault: its kind, the node whose run met it and the line of its formula, from 1.
fn push_fault(out: &mut Vec<u8>, kind: FaultKind, node: &Node, line: u32) -> Result<(), AllocError>
    ensures { OnOk result (out.new.items
        ≡ out.old.items ++ spec.refusal_text (EvalRefusal.Fault kind node.now line)) }
{
    push(out, b"fault ")?;
    push(out, fault_text(kind))?;
    push(out, b" at ")?;
    push_node(out, node)?;
    push(out, b" line ")?;
    push_number(out, line as u64)
}

/// Adds why an evaluation gave no value. Want of memory is handed on: it has no text.
pub fn push_refusal(out: &mut Vec<u8>, refusal: &EvalRefusal) -> Result<(), AllocError>
    ensures text { OnOk result (out.new.items ≡ out.old.items ++ spec.refusal_text refusal.now) }
    ensures memory { OnOk result (refusal.now ≢ EvalRefusal.NoMemory) }
{
    match refusal {
        EvalRefusal::NoSuch => push(out, b"no such node"),
        EvalRefusal::WrongCount => push(out, b"wrong count"),
        EvalRefusal::Fault { kind, node, line } => push_fault(out, *kind, node, *line),
        EvalRefusal::Ring(nodes) => push_ring(out, nodes.as_slice()),
        EvalRefusal::TooDeep(node) => {
            push(out, b"too deep at ")?;
            push_node(out, node)
        }
        EvalRefusal::Full => push(out, b"full"),
        EvalRefusal::NoMemory => Err(AllocError),
    }
}

/// The text of why an evaluation gave no value.
pub fn text_of_eval(alloc: Global, refusal: &EvalRefusal) -> Result<Vec<u8>, AllocError>
    requires { refusal.now ≢ EvalRefusal.NoMemory }
    ensures { IfOk result (λ text. text.items ≡ spec.refusal_text refusal.now) }
{
    let mut text = Vec::new(alloc);
    push_refusal(&mut text, refusal)?;
    Ok(text)
}
