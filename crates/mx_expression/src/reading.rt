//! What is read one behind the other.

ghost use Rattle.std.specs.Prelude.{◌≡◌};
ghost use Rattle.mx_expression.specs.OperandParsers as spec;

/// What was read first, with what was read behind it. Where nothing could be, the first is dropped.
pub fn followed<A: Drop, B, E>(first: A, next: Result<B, E>) -> Result<(A, B), E>
    ensures { result ≡ spec.followed first next }
{
    match next {
        Ok(next) => Ok((first, next)),
        Err(failure) => Err(failure),
    }
}
