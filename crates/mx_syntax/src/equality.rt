//! Equality: `==` says that two trees are the same.
ghost use Rattle.mx_list.specs.Equality.{TellsApart};
ghost use Rattle.mx_syntax.specs.Equality.{expr_eq, stmt_eq, param_eq, formula_eq, params_eq};

/// The laws of `==`, for proofs: two trees are equal exactly where they have the same variants,
/// values, names and lists, whatever they share. Does nothing when it runs.
pub fn equality_laws()
    ensures expr { TellsApart expr_eq }
    ensures stmt { TellsApart stmt_eq }
    ensures param { TellsApart param_eq }
    ensures formula { TellsApart formula_eq }
    ensures params { TellsApart params_eq }
{}
