//! The commands of a file, one after another.
ghost use Rattle.std.specs.Prelude.{◌≡◌, ◌≤◌, ◌+◌, ◌++◌, ◌∷◌, [], None, Some, length, IfOk, IfSome, List};
ghost use Rattle.mx_script.specs.Script.{commands};
ghost use Rattle.mx_script.specs.Given.{command_of, commands_left, Gives};

use crate::line::{blank, continues, first_line, strip_cr};
use mx_words::table::{CommandWord, takes_lines};
use mx_words::text::strip_spaces;
use std::alloc::{AllocError, Global};
use std::marker::Model;

/// A command that may go on in the next line.
#[derive(Drop)]
pub struct Pending {
    /// The number of its first line, from 1.
    pub number: u64,
    /// Its lines so far without their CR, joined by LF.
    pub text: Vec<u8>,
}

/// The command with one more line.
pub fn continued(command: Pending, line: &[u8]) -> Result<Pending, AllocError>
    ensures { let text = command.text.items ++ 10 ∷ line.now in
        IfOk result (λ p. command_of p ≡ record { number = command.number; text = text }) }
{
    let Pending { number, mut text } = command;
    text.push(b'\n')?;
    text.extend_from_slice(line)?;
    Ok(Pending { number, text })
}

/// The lines that are left of a file, and the number of the first of them.
#[derive(Drop)]
struct Lines<'a> {
    number: u64,
    rest: &'a [u8],
    ghost within: { number + length rest.now ≤ 67108865 },
}

/// Takes the lines that go on with a command.
fn gather(command: Pending, lines: &mut Lines<'_>) -> Result<Pending, AllocError>
    ensures given { (words : List CommandWord) → IfOk result (λ whole.
        commands_left words lines.old.number (Some (command_of command)) lines.old.rest.now
        ≡ command_of whole ∷ commands_left words lines.new.number None lines.new.rest.now) }
    ensures same { IfOk result (λ whole. whole.number ≡ command.number) }
{
    let mut whole = command;
    'lines: while let Some((line, rest)) = first_line(lines.rest) {
        let line = strip_cr(line);
        if !continues(line) {
            return Ok(whole);
        }
        whole = continued(whole, line)?;
        lines.rest = rest;
        lines.number += 1;
    }
    return Ok(whole);
}

/// The next command of a file, whose words are these.
fn next_command(
    alloc: Global,
    words: &[CommandWord],
    lines: &mut Lines<'_>,
) -> Result<Option<Pending>, AllocError>
    ensures given { IfOk result (λ found. Gives
        (commands_left words.now lines.old.number None lines.old.rest.now) found
        (commands_left words.now lines.new.number None lines.new.rest.now)) }
    ensures within { IfOk result (λ found. IfSome found (λ command. command.number ≤ 67108865)) }
{
    'lines: while let Some((line, rest)) = first_line(lines.rest) {
        let number = lines.number;
        lines.rest = rest;
        lines.number += 1;
        let line = strip_cr(line);
        let text = strip_spaces(line);
        if blank(text) {
            continue;
        }
        let command = Pending {
            number,
            text: Vec::from_slice(alloc, line)?,
        };
        if takes_lines(words, text) {
            return Ok(Some(gather(command, lines)?));
        }
        return Ok(Some(command));
    }
    return Ok(None);
}

/// The commands of a file, whose words are given. Contracts see those that are still to come.
#[derive(Drop)]
pub struct Commands<'a> {
    words: &'a [CommandWord],
    lines: Lines<'a>,
}

impl<'a> Model for Commands<'a> {
    ghost use Rattle.std.specs.Prelude.{List, None};
    ghost use Rattle.mx_script.specs.Script.{Command};
    ghost use Rattle.mx_script.specs.Given.{commands_left};

    ghost Value = { List Command };

    ghost view = { λ c. commands_left c.words.now c.lines.number None c.lines.rest.now };
}

impl<'a> Commands<'a> {
    /// All commands of a file, whose words are these.
    pub fn new(words: &'a [CommandWord], bytes: &'a [u8]) -> Commands<'a>
        requires { length bytes.now ≤ 67108864 }
        ensures { result ≡ commands words.now bytes.now }
    {
        let lines = Lines {
            number: 1,
            rest: bytes,
        };
        Commands { words, lines }
    }

    /// The next command, where there is one.
    pub fn next(&mut self, alloc: Global) -> Result<Option<Pending>, AllocError>
        ensures given { IfOk result (λ found. Gives self.old found self.new) }
        ensures within { IfOk result (λ found. IfSome found (λ c. c.number ≤ 67108865)) }
    {
        next_command(alloc, self.words, &mut self.lines)
    }
}
