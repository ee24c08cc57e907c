//! The bytes of a text at which a bracket or an indent may open.

ghost use Rattle.std.specs.Prelude.{◌≤◌, ℕ, List};
ghost use Rattle.mx_grammar.specs.Spelling.{NestedAt};
ghost use Rattle.mx_parse.specs.Openings as spec;

/// A text that opens at most 64 brackets and indents has no token at which more are open.
pub fn few_openings()
    ensures { (text : List ℕ) → spec.openings text ≤ 64 → (place : ℕ) → NestedAt text place → ⊥ }
{}
