//! From a number, a test or a fault to what an operator answers.
ghost use Rattle.std.specs.Prelude.{◌≡◌, Ok, Err};
ghost use Rattle.mx_ops.specs.Answers.{decimal, flag, fault_of, Answers, sized};

use crate::op::OpRefusal;
use mx_value::fault::FaultKind;
use mx_value::fixed::{Fixed, NumFault};
use mx_value::value::Value;

/// A whole number that was computed, or Overflow where it has not 64 bits.
#[inline(always)]
pub fn whole_answer(number: Option<i64>) -> Result<Value, FaultKind>
    ensures { result ≡ sized number }
{
    match number {
        Some(n) => Ok(Value::Int(n)),
        None => Err(FaultKind::Overflow),
    }
}

#[inline(always)]
fn fault_of(fault: NumFault) -> FaultKind
    ensures { result ≡ fault_of fault }
{
    match fault {
        NumFault::Overflow => FaultKind::Overflow,
        NumFault::ZeroDivision => FaultKind::ZeroDivision,
        NumFault::Domain => FaultKind::Domain,
    }
}

/// A decimal number that was computed.
#[inline(always)]
pub fn decimal_answer(number: Result<Fixed, NumFault>) -> Result<Value, FaultKind>
    ensures { result ≡ decimal number }
{
    match number {
        Ok(x) => Ok(Value::Fix(x)),
        Err(fault) => Err(fault_of(fault)),
    }
}

/// A flag that was computed.
pub fn flag_answer(test: Result<bool, FaultKind>) -> Result<Value, FaultKind>
    ensures { result ≡ flag test }
{
    match test {
        Ok(holds) => Ok(Value::Flag(holds)),
        Err(kind) => Err(kind),
    }
}

/// The answer of a computation that takes no memory.
#[inline(always)]
pub fn answered(answer: Result<Value, FaultKind>) -> Result<Value, OpRefusal>
    ensures { Answers result answer }
{
    match answer {
        Ok(value) => Ok(value),
        Err(kind) => Err(OpRefusal::Fault(kind)),
    }
}

/// The answer where no row of an operator's table takes the operands.
#[inline(always)]
pub fn mismatch() -> Result<Value, OpRefusal>
    ensures { result ≡ Err (OpRefusal.Fault FaultKind.TypeMismatch) }
{
    Err(OpRefusal::Fault(FaultKind::TypeMismatch))
}
