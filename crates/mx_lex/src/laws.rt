//! What holds of the tokens of every source, for those who read them.

ghost use Rattle.std.specs.Prelude.{◌≡◌, ℕ, List, length, Ok, All};
ghost use Rattle.mx_lex.specs.Lexing.{tokens_of};
ghost use Rattle.mx_lex.specs.Laws.{InOrder, EndsWithEnd, Balanced, IsSpelled, text_of};
ghost use Rattle.mx_lex.specs.declared.Token.{Token};

/// Tokens stand in the source's order, within the source, and do not overlap.
pub fn tokens_stand_in_order()
    ensures { (source : List ℕ) (tokens : List Token) → tokens_of source ≡ Ok tokens →
        InOrder 0 (length source) tokens }
{}

/// The last token is END at the source's end, and no other is END.
pub fn tokens_end_with_end()
    ensures { (source : List ℕ) (tokens : List Token) → tokens_of source ≡ Ok tokens →
        EndsWithEnd (length source) tokens }
{}

/// Each INDENT has its DEDENT, and each DEDENT its INDENT before it.
pub fn blocks_are_balanced()
    ensures { (source : List ℕ) (tokens : List Token) → tokens_of source ≡ Ok tokens →
        Balanced 0 tokens }
{}

/// The kind of a token says what its bytes are.
pub fn kinds_tell_bytes()
    ensures { (source : List ℕ) (tokens : List Token) → tokens_of source ≡ Ok tokens →
        All (λ t. IsSpelled t.kind (text_of source t)) tokens }
{}
