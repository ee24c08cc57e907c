//! Equality: `==` says that two values are the same.
ghost use Rattle.mx_list.specs.Equality.{TellsApart};
ghost use Rattle.std.specs.Cmp.Lexicographic.{pointwise};
ghost use Rattle.mx_value.specs.Equality.{fixed_eq, label_eq, value_eq, segment_eq, cells_eq, node_eq, read_eq, namespace_eq, fault_eq, refusal_eq};

/// The laws of `==`, for proofs: two values are equal exactly where they have the same variants,
/// numbers and lists, whatever they share. So a `HashMap` keyed by labels or nodes keeps one entry
/// for each. Does nothing when it runs.
pub fn equality_laws()
    ensures fixed { TellsApart fixed_eq }
    ensures label { TellsApart label_eq }
    ensures value { TellsApart value_eq }
    ensures segment { TellsApart segment_eq }
    ensures cells { TellsApart cells_eq }
    ensures items { TellsApart (pointwise value_eq) }
    ensures address { TellsApart (pointwise segment_eq) }
    ensures path { TellsApart (pointwise label_eq) }
    ensures node { TellsApart node_eq }
    ensures read { TellsApart read_eq }
    ensures reads { TellsApart (pointwise read_eq) }
    ensures namespace { TellsApart namespace_eq }
    ensures fault { TellsApart fault_eq }
    ensures refusal { TellsApart refusal_eq }
{}
