//! How many brackets and indents are open at once.

ghost use Rattle.std.specs.Prelude.{◌≡◌, ◌≤◌, MatchOption};
ghost use Rattle.mx_grammar.specs.Spelling.{Shallow, DeepAt, behind_word, open_count, unopened};

use crate::word::{Symbol, Word};

/// How many brackets and indents may be open at once.
const MOST_OPEN: usize = 64;

/// How many brackets and how many indents are open.
#[derive(Clone, Copy)]
pub struct Open {
    pub brackets: usize,
    pub indents: usize,
}

fn open_behind(word: &Word, before: Open) -> Open
    requires { open_count before ≤ 64 }
    ensures { result ≡ behind_word word.now before }
{
    match word {
        Word::Symbol(Symbol::OpenRound | Symbol::OpenSquare | Symbol::OpenCurly) => Open {
            brackets: before.brackets + 1,
            ..before
        },
        Word::Symbol(Symbol::CloseRound | Symbol::CloseSquare | Symbol::CloseCurly) => Open {
            brackets: before.brackets.saturating_sub(1),
            ..before
        },
        Word::Symbol(Symbol::Indent) => Open {
            indents: before.indents + 1,
            ..before
        },
        Word::Symbol(Symbol::Dedent) => Open {
            indents: before.indents.saturating_sub(1),
            ..before
        },
        _ => before,
    }
}

/// How many tokens there are from the first on at which more are open.
pub fn too_nested(words: &[Word]) -> Option<usize>
    ensures { MatchOption result (Shallow 64 unopened words.now)
        (λ left. DeepAt 64 unopened words.now left) }
{
    let mut open_now = Open {
        brackets: 0,
        indents: 0,
    };
    for (i, word) in words.iter().enumerate() {
        open_now = open_behind(word, open_now);
        if open_now.brackets + open_now.indents > MOST_OPEN {
            return Some(words.len() - i);
        }
    }
    None
}
