//! What `==` says of lists and shared values.
ghost use Rattle.std.specs.Cmp.Lexicographic.{pointwise};
ghost use Rattle.mx_list.specs.Equality.{TellsApart};

/// The law of `==`, for proofs: lists are equal exactly where they are the same, if that holds of
/// their items. `==` of shared values is that of the values. Does nothing when it runs.
pub fn equality_laws<T: PartialEq>()
    ensures { TellsApart T.eq → TellsApart (pointwise T.eq) }
{}
