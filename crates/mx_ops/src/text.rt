//! Texts that are made: joined, cut out of others, or written from values.
ghost use Rattle.std.specs.Prelude.{◌≡◌, ◌+◌, ◌++◌, ◌<◌, length, All};
ghost use Rattle.mx_value.specs.Label.{IsPrintable};
ghost use Rattle.mx_value.specs.declared.value.Value.TheVariants as made_value;
ghost use Rattle.mx_ops.specs.Answers.{Answers, made};
ghost use Rattle.mx_ops.specs.Builtins as spec;
ghost use Rattle.mx_print.specs.Values.{value_text};

use crate::op::OpRefusal;
use mx_print::value::push_value;
use mx_value::fault::FaultKind;
use mx_value::label::{Label, LabelRefusal};
use mx_value::value::Value;
use std::alloc::Global;

/// The greatest size of a value.
pub const MOST_SIZE: u64 = 1_000_000;

/// The text of printable bytes.
pub fn make_text(alloc: Global, bytes: &[u8]) -> Result<Value, OpRefusal>
    requires { All IsPrintable bytes.now }
    ensures { Answers result (Ok (made_value.Text bytes.now)) }
{
    match Label::new(alloc, bytes) {
        Ok(text) => Ok(Value::Text(text)),
        Err(LabelRefusal::NoMemory) => Err(OpRefusal::NoMemory),
        Err(LabelRefusal::NotPrintable(_)) => unreachable!(),
    }
}

/// Two texts in one. TooLarge comes before any memory is taken.
pub fn join_texts(alloc: Global, s: &[u8], t: &[u8]) -> Result<Value, OpRefusal>
    requires first { All IsPrintable s.now }
    requires second { All IsPrintable t.now }
    ensures { Answers result (made (made_value.Text (s.now ++ t.now))) }
{
    if s.len().saturating_add(t.len()) as u64 >= MOST_SIZE {
        return Err(OpRefusal::Fault(FaultKind::TooLarge));
    }
    return append(alloc, s, t);
}

fn append(alloc: Global, s: &[u8], t: &[u8]) -> Result<Value, OpRefusal>
    requires first { All IsPrintable s.now }
    requires second { All IsPrintable t.now }
    requires small { length s.now + length t.now < MOST_SIZE }
    ensures { Answers result (made (made_value.Text (s.now ++ t.now))) }
{
    let mut bytes = Vec::with_capacity(alloc, s.len() + t.len())?;
    bytes.extend_from_slice(s)?;
    bytes.extend_from_slice(t)?;
    return make_text(alloc, bytes.as_slice());
}

/// The text that a value is written as, where it is None, a flag, a number or a text.
pub fn text_of(alloc: Global, value: &Value) -> Result<Value, OpRefusal>
    ensures { Answers result (spec.text_answer value.now) }
{
    match value {
        Value::Nothing => write_text(alloc, value),
        Value::Flag(_) => write_text(alloc, value),
        Value::Int(_) => write_text(alloc, value),
        Value::Fix(_) => write_text(alloc, value),
        Value::Text(text) => Ok(Value::Text(text.copy()?)),
        Value::Tup(_) => Err(OpRefusal::Fault(FaultKind::TypeMismatch)),
        Value::Space(_) => Err(OpRefusal::Fault(FaultKind::TypeMismatch)),
        Value::Cells(_) => Err(OpRefusal::Fault(FaultKind::TypeMismatch)),
        Value::Table(_) => Err(OpRefusal::Fault(FaultKind::TypeMismatch)),
    }
}

fn write_text(alloc: Global, value: &Value) -> Result<Value, OpRefusal>
    requires { All IsPrintable (value_text value.now) }
    ensures { Answers result (Ok (made_value.Text (value_text value.now))) }
{
    let mut bytes = Vec::new(alloc);
    push_value(&mut bytes, value)?;
    return make_text(alloc, bytes.as_slice());
}
