//! The state that reading keeps of a line.

use crate::Token;

/// How far a line has come.
#[derive(Clone, Copy)]
pub enum Phase {
    /// Only blank lines were read so far.
    BeforeFirst,
    /// The line has given no token, or its NEWLINE already.
    AtStart,
    /// The line has given a token, and its NEWLINE is still to come.
    Inside,
}

/// A line's number, counted from 1, how far it has come, and how many brackets are open.
#[derive(Clone, Copy)]
pub struct Line {
    pub number: u32,
    pub phase: Phase,
    pub brackets: u32,
}

/// What stands at a place: the token that it gives, the bytes that it takes, and how the line goes on.
#[derive(Clone, Copy)]
pub struct Head {
    pub token: Option<Token>,
    pub taken: usize,
    pub next: Line,
}
