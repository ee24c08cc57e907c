//! Laws of tokens, for proofs and for those who read them. They do nothing when they run.

ghost use Rattle.std.specs.Prelude.{◌≡◌, ◌≢◌, ◌≤◌, ℕ, List, length, Ok, Err};
ghost use Rattle.mx_lex.specs.Lexing.{tokens_of};
ghost use Rattle.mx_lex.specs.declared.Token.{Token};
ghost use Rattle.mx_lex.specs.declared.LexRefusal.{LexRefusal};
ghost use Rattle.mx_token_laws.specs.Standing.{IsRead, beginning};

/// The tokens of a source follow one another as Python's grammar has it: between them stand spaces, line ends and comments
/// alone; each name, number, text and mark is the longest that stands there; NEWLINE ends each line of tokens, and INDENT and
/// DEDENT stand where an indent grows and falls.
pub fn tokens_stand_where_they_must()
    ensures { (source : List ℕ) (tokens : List Token) →
        tokens_of source ≡ Ok tokens → IsRead beginning 0 source tokens }
{}

/// What a source is refused for is never want of memory.
pub fn refusals_are_of_the_source()
    ensures { (source : List ℕ) (why : LexRefusal) →
        tokens_of source ≡ Err why → why ≢ LexRefusal.NoMemory }
{}

/// Tokens that follow one another as they must in a source within its limit are its tokens. So a source within its limit is refused
/// exactly where no tokens do.
pub fn no_other_tokens_stand()
    ensures { (source : List ℕ) (tokens : List Token) → length source ≤ 65536 →
        IsRead beginning 0 source tokens → tokens_of source ≡ Ok tokens }
{}
