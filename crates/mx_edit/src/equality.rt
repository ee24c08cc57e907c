//! Equality: `==` says that two values are the same.
ghost use Rattle.mx_list.specs.Equality.{TellsApart};
ghost use Rattle.mx_edit.specs.Equality.{key_eq, ref_value_eq, table_eq, key_result_eq};

/// The laws of `==`, for proofs: two keys are equal exactly where they have the same variant, names and node, whatever
/// they share, so that a map keyed by them keeps one entry for each; and so for the values of references, for tables
/// and for what keys lead to, so that a key is changed exactly where `!=` says so. Does nothing when it runs.
pub fn equality_laws()
    ensures key { TellsApart key_eq }
    ensures ref_value { TellsApart ref_value_eq }
    ensures table { TellsApart table_eq }
    ensures key_result { TellsApart key_result_eq }
{}
