//! Files of edits: those of spaces, of references and of inputs.
ghost use Rattle.std.specs.Prelude.{◌≤◌, length};
ghost use Rattle.mx_model.specs.Literals.{IsRead};
ghost use Rattle.mx_project.specs.Folder.{edit_file};
ghost use Rattle.mx_project.specs.Reading.{EditsBy, EditsSay, Puts, SayEdits, UnlessFree, left_by, line_at};

use crate::refusal::ProjectRefusal;
use crate::said::{edit_trouble, line_number, line_trouble};
use mx_edit::edit::Edit;
use mx_prepare::prepare::{commit, prepare};
use mx_script::{Command, Commands, read_command};
use mx_value::label::Label;
use mx_words::table::CommandWord;
use mx_world::world::World;
use std::alloc::Global;

/// A file whose lines are edits, with the words that they may begin with.
#[derive(Drop)]
pub struct EditFile<'a> {
    pub name: Label,
    pub words: &'a [CommandWord],
}

/// Carries out an edit that a line of a file says. That of a table has the line 0.
pub fn put_edit(
    alloc: Global,
    world: &mut World,
    file: &Label,
    line: u32,
    edit: &Edit,
) -> Result<(), ProjectRefusal>
    requires { IsRead edit.now }
    ensures { UnlessFree (Puts file.now world.old line edit.now) (left_by result world.new) }
{
    match prepare(alloc, world, edit) {
        Ok(prepared) => {
            commit(prepared, world);
            Ok(())
        }
        Err(why) => Err(edit_trouble(file, line, why)),
    }
}

/// Carries out a line of a file of edits.
fn edit_line(
    alloc: Global,
    world: &mut World,
    file: &EditFile<'_>,
    line: u32,
    text: &[u8],
) -> Result<(), ProjectRefusal>
    requires { SayEdits file.now.words.now }
    ensures { let file = edit_file file.now.name file.now.words.now in
        UnlessFree (EditsBy file world.old (line_at line text.now)) (left_by result world.new) }
{
    mx_command_laws::edits::laws();
    match read_command(alloc, file.words, text) {
        Ok(Command::Edit(edit)) => put_edit(alloc, world, &file.name, line, &edit),
        Ok(_) => unreachable!(),
        Err(why) => Err(line_trouble(&file.name, line, why)),
    }
}

/// Carries out what a file of edits says.
pub fn edits_said(
    alloc: Global,
    world: &mut World,
    file: &EditFile<'_>,
    bytes: &[u8],
) -> Result<(), ProjectRefusal>
    requires words { SayEdits file.now.words.now }
    requires within { length bytes.now ≤ 67108864 }
    ensures { let file = edit_file file.now.name file.now.words.now in
        UnlessFree (EditsSay file world.old bytes.now) (left_by result world.new) }
{
    let mut commands = Commands::new(file.words, bytes);
    'commands: while let Some(command) = commands.next(alloc)? {
        let line = line_number(command.number);
        match edit_line(alloc, world, file, line, &command.text) {
            Ok(()) => {}
            Err(why) => return Err(why),
        }
    }
    Ok(())
}
