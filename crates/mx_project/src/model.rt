//! The model file: spaces with their bases, and the names of tables.
ghost use Rattle.std.specs.Prelude.{◌≡◌, ◌≤◌, ◌↔◌, length, Ok, Err, IfOk, IfErr, IsTrue};
ghost use Rattle.mx_script.specs.Script.{commands, without_cr};
ghost use Rattle.mx_whole_edits.specs.Laid.{LaysOut};
ghost use Rattle.mx_project.specs.Folder as names;
ghost use Rattle.mx_project.specs.Reading as spec;
ghost use Rattle.mx_project.specs.Reading.{Completes, ModelSays, OneByOne, IsLaidBy, IsLaidOut, IsNamedBy, IsTableLine, LaysLine, SayLines, LaysAll, UnlessFree, laid_of, left_by, line_at, nothing_laid};

use crate::folder::label_of;
use crate::refusal::ProjectRefusal;
use crate::said::{add_name, behind_first, edit_trouble, first_of, line_number, line_trouble};
use mx_edit::edit::Edit;
use mx_edit::refusal::EditRefusal;
use mx_model::text::ModelText;
use mx_prepare::complete::world_of;
use mx_prepare::lines::{name_laws, with_line};
use mx_script::line::strip_cr;
use mx_script::{Command, Commands, FormRefusal, read_command};
use mx_value::label::Label;
use mx_value::name::is_name;
use mx_whole_edits::laid::laid_laws;
use mx_words::head::HeadForm;
use mx_words::part::names_in;
use mx_words::table::{CommandWord, word_of};
use mx_words::text::{spaces, strip_spaces, word_length};
use mx_world::world::World;
use std::alloc::{AllocError, Global};

/// The words of the model file's lines.
const MODEL_WORDS: [CommandWord; 3] = [CommandWord::Space, CommandWord::Bases, CommandWord::Table];

/// What the lines of a model file have laid out so far: spaces with their bases, and the names of tables.
#[derive(Drop)]
pub struct LaidOut {
    pub text: ModelText,
    pub tables: Vec<Label>,
}

impl LaidOut {
    /// Before the first line.
    pub fn new(alloc: Global) -> Result<LaidOut, AllocError>
        ensures nothing { IfOk result (λ l. laid_of l.text l.tables.items ≡ nothing_laid) }
        ensures laid { IfOk result (λ l. IsLaidOut l.text) }
    {
        laid_laws();
        name_laws();
        Ok(LaidOut {
            text: ModelText::empty(alloc)?,
            tables: Vec::new(alloc),
        })
    }
}

/// The name of the model file.
pub fn model_name(alloc: Global) -> Result<Label, AllocError>
    ensures { IfOk result (λ name. name ≡ names.model_file) }
{
    label_of(alloc, b"model.mx")
}

/// Carries out the line of a space or of its bases.
fn lay_edit(
    alloc: Global,
    laid: &mut LaidOut,
    number: u32,
    edit: &Edit,
) -> Result<(), ProjectRefusal>
    requires laid { IsLaidOut laid.old.text }
    requires small { number ≤ 67108865 }
    requires line { LaysOut edit.now }
    ensures lays { UnlessFree (IsLaidBy (laid_of laid.old.text laid.old.tables.items) number edit.now)
        (left_by result (laid_of laid.new.text laid.new.tables.items)) }
    ensures kept { IsLaidOut laid.new.text }
{
    let name = model_name(alloc)?;
    match with_line(alloc, &laid.text, edit) {
        Ok(made) => {
            laid.text = made;
            Ok(())
        }
        Err(why) => Err(edit_trouble(&name, number + 1, why)),
    }
}

/// A line that is no table's is a space or the bases of one, for proofs. Does nothing when it runs.
fn line_law()
    ensures { SayLines }
{}

/// Carries out a line that is no table's.
fn lay_space(
    alloc: Global,
    laid: &mut LaidOut,
    number: u32,
    text: &[u8],
) -> Result<(), ProjectRefusal>
    requires laid { IsLaidOut laid.old.text }
    requires small { number ≤ 67108865 }
    requires other { IsTableLine (line_at number text.now) → ⊥ }
    ensures lays { let before = laid_of laid.old.text laid.old.tables.items in
        UnlessFree (LaysLine before (line_at number text.now))
        (left_by result (laid_of laid.new.text laid.new.tables.items)) }
    ensures kept { IsLaidOut laid.new.text }
{
    line_law();
    match read_command(alloc, &MODEL_WORDS, text) {
        Ok(Command::Edit(edit)) => lay_edit(alloc, laid, number, &edit),
        Ok(_) => unreachable!(),
        Err(why) => {
            let name = model_name(alloc)?;
            Err(line_trouble(&name, number + 1, why))
        }
    }
}

/// Names a table.
fn name_table(
    alloc: Global,
    laid: &mut LaidOut,
    number: u32,
    name: Label,
) -> Result<(), ProjectRefusal>
    requires laid { IsLaidOut laid.old.text }
    requires small { number ≤ 67108865 }
    ensures names { UnlessFree (IsNamedBy (laid_of laid.old.text laid.old.tables.items) number name)
        (left_by result (laid_of laid.new.text laid.new.tables.items)) }
    ensures kept { IsLaidOut laid.new.text }
{
    if !is_name(&name) {
        let file = model_name(alloc)?;
        return Err(ProjectRefusal::Refused(file, number + 1, EditRefusal::BadName));
    }
    add_name(&mut laid.tables, name)?;
    Ok(())
}

/// Why a table's line names none.
fn table_trouble(alloc: Global, line: u32, why: FormRefusal) -> ProjectRefusal
    ensures { UnlessFree {A = Label} (λ answer.
        answer ≡ Err (spec.table_trouble line why)) (Err result) }
{
    let FormRefusal::NoMemory = why else {
        return match model_name(alloc) {
            Ok(file) => ProjectRefusal::BadLine(file, line),
            Err(_) => ProjectRefusal::NoMemory,
        };
    };
    ProjectRefusal::NoMemory
}

/// Carries out a table's line.
fn lay_table(
    alloc: Global,
    laid: &mut LaidOut,
    number: u32,
    text: &[u8],
) -> Result<(), ProjectRefusal>
    requires laid { IsLaidOut laid.old.text }
    requires small { number ≤ 67108865 }
    requires table { IsTableLine (line_at number text.now) }
    ensures lays { let before = laid_of laid.old.text laid.old.tables.items in
        UnlessFree (LaysLine before (line_at number text.now))
        (left_by result (laid_of laid.new.text laid.new.tables.items)) }
    ensures kept { IsLaidOut laid.new.text }
{
    match names_in(alloc, spaces(text), HeadForm::Name, strip_spaces(text)) {
        Ok(target) => name_table(alloc, laid, number, target.name),
        Err(why) => Err(table_trouble(alloc, number + 1, why)),
    }
}

/// Carries out a line of the model file.
pub fn lay_line(
    alloc: Global,
    laid: &mut LaidOut,
    number: u32,
    text: &[u8],
) -> Result<(), ProjectRefusal>
    requires laid { IsLaidOut laid.old.text }
    requires small { number ≤ 67108865 }
    ensures lays { let before = laid_of laid.old.text laid.old.tables.items in
        UnlessFree (LaysLine before (line_at number text.now))
        (left_by result (laid_of laid.new.text laid.new.tables.items)) }
    ensures kept { IsLaidOut laid.new.text }
{
    let source = strip_spaces(text);
    let end = word_length(source);
    match word_of(&MODEL_WORDS, &source[..end]) {
        Some(CommandWord::Table) => lay_table(alloc, laid, number, text),
        _ => lay_space(alloc, laid, number, text),
    }
}

/// Carries out the lines of the model file behind its first.
fn lay_lines(alloc: Global, laid: &mut LaidOut, bytes: &[u8]) -> Result<(), ProjectRefusal>
    requires laid { IsLaidOut laid.old.text }
    requires within { length bytes.now ≤ 67108864 }
    ensures lays { let before = laid_of laid.old.text laid.old.tables.items in
        UnlessFree (OneByOne LaysLine before (commands names.model_words bytes.now))
        (left_by result (laid_of laid.new.text laid.new.tables.items)) }
    ensures kept { IsLaidOut laid.new.text }
{
    let mut commands = Commands::new(&MODEL_WORDS, bytes);
    'commands: while let Some(command) = commands.next(alloc)? {
        let number = line_number(command.number);
        match lay_line(alloc, laid, number, &command.text) {
            Ok(()) => {}
            Err(why) => return Err(why),
        }
    }
    Ok(())
}

/// What a model file says: a world of its spaces and bases, and the names of its tables.
#[derive(Drop)]
pub struct ModelFile {
    pub world: World,
    pub tables: Vec<Label>,
}

/// The world of what the lines of a model file have laid out.
fn complete(alloc: Global, laid: LaidOut) -> Result<ModelFile, ProjectRefusal>
    requires { IsLaidOut laid.text }
    ensures complete { IfOk result (λ m. Completes (laid_of laid.text laid.tables.items)
        (Ok (laid_of m.world m.tables.items))) }
    ensures refused { IfErr result (λ why. UnlessFree
        (Completes (laid_of laid.text laid.tables.items)) (Err why)) }
{
    let LaidOut { text, tables } = laid;
    let name = model_name(alloc)?;
    match world_of(alloc, text, tables.len()) {
        Ok(world) => Ok(ModelFile { world, tables }),
        Err(why) => Err(edit_trouble(&name, 0, why)),
    }
}

/// What the lines of the model file behind its first lay out.
fn laid_said(alloc: Global, bytes: &[u8]) -> Result<LaidOut, ProjectRefusal>
    requires { length bytes.now ≤ 67108864 }
    ensures lays { IfOk result (λ l. LaysAll bytes.now (Ok (laid_of l.text l.tables.items))) }
    ensures kept { IfOk result (λ l. IsLaidOut l.text) }
    ensures refused { IfErr result (λ why. UnlessFree (LaysAll bytes.now) (Err why)) }
{
    let mut laid = LaidOut::new(alloc)?;
    match lay_lines(alloc, &mut laid, bytes) {
        Ok(()) => Ok(laid),
        Err(why) => Err(why),
    }
}

/// Whether the first line of a model file is that of a project.
fn begins_project(bytes: &[u8]) -> bool
    ensures { IsTrue result ↔ without_cr (spec.first_of bytes.now) ≡ names.project_line }
{
    strip_cr(first_of(bytes)) == b"mx project 1".as_slice()
}

/// What the bytes of a model file say.
pub fn model_said(alloc: Global, bytes: &[u8]) -> Result<ModelFile, ProjectRefusal>
    requires { length bytes.now ≤ 67108864 }
    ensures says { IfOk result (λ m. ModelSays bytes.now
        (Ok (laid_of m.world m.tables.items))) }
    ensures refused { IfErr result (λ why. UnlessFree (ModelSays bytes.now) (Err why)) }
{
    if !begins_project(bytes) {
        let name = model_name(alloc)?;
        return Err(ProjectRefusal::BadLine(name, 1));
    }
    match laid_said(alloc, behind_first(bytes)) {
        Ok(laid) => complete(alloc, laid),
        Err(why) => Err(why),
    }
}
