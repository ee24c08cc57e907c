//! How a project is read.
ghost use Rattle.std.specs.Prelude.{◌≡◌, ◌∷◌, ◌++◌, [], map, Ok, Err, OnOk, IfOk, IfErr};
ghost use Rattle.std.specs.Option.{option_to_list};
ghost use Rattle.mx_project.specs.Folder.{edit_file};
ghost use Rattle.mx_project.specs.Folder as spec;
ghost use Rattle.mx_project.specs.Reading.{CountsReads, EditsFrom, ModelSays, OfFile, OneByOne, Reads, ReadsEdits, ReadsEnds, ReadsSpaces, ReadsTables, SayEdits, SetsTable, TableSays, UnlessFault, UnlessFree, file_trouble, laid_of, left_by};

use crate::edits::{EditFile, edits_said, put_edit};
use crate::folder::{label_of, space_file, table_file};
use crate::found::find_file;
use crate::model::{ModelFile, model_name, model_said};
use crate::refusal::ProjectRefusal;
use mx_edit::edit::Edit;
use mx_edit::table::TableRefusal;
use mx_model::text::ModelText;
use mx_outside::Files;
use mx_tables::read::read_table;
use mx_value::label::Label;
use mx_value::node::Path;
use mx_words::table::CommandWord;
use mx_world::world::World;
use std::alloc::{AllocError, Global};

/// Why the file of a table says none.
fn table_trouble(file: &Label, why: TableRefusal) -> ProjectRefusal
    ensures { UnlessFree {A = Label} (λ answer. answer ≡ Err (file_trouble file.now why))
        (Err result) }
{
    let TableRefusal::NoMemory = why else {
        return match file.copy() {
            Ok(file) => ProjectRefusal::BadTable(file, why),
            Err(_) => ProjectRefusal::NoMemory,
        };
    };
    ProjectRefusal::NoMemory
}

/// Sets what bytes say as a table.
fn table_said(
    alloc: Global,
    world: &mut World,
    name: &Label,
    bytes: &[u8],
) -> Result<(), ProjectRefusal>
    ensures { UnlessFree (TableSays world.old name.now bytes.now) (left_by result world.new) }
{
    let file = table_file(alloc, name)?;
    match read_table(alloc, bytes) {
        Ok(table) => {
            let Ok(name) = name.copy() else {
                return Err(ProjectRefusal::NoMemory);
            };
            let edit = Edit::SetTable { name, table };
            put_edit(alloc, world, &file, 0, &edit)
        }
        Err(why) => Err(table_trouble(&file, why)),
    }
}

/// Sets the table of this name from its file.
fn set_table<F: Files>(
    alloc: Global,
    world: &mut World,
    folder: &Label,
    name: &Label,
    files: &mut F,
) -> Result<(), ProjectRefusal>
    ensures sets { UnlessFault (SetsTable (F.held files.old) folder.now world.old name.now)
        (left_by result world.new) }
    ensures held { F.held files.new ≡ F.held files.old }
    ensures counted { CountsReads result (F.read_faults files.old) (F.read_faults files.new) }
    ensures no_write { F.write_faults files.new ≡ F.write_faults files.old }
{
    let file = table_file(alloc, name)?;
    match find_file(alloc, folder, &file, files) {
        Ok(bytes) => table_said(alloc, world, name, bytes.as_slice()),
        Err(why) => Err(why),
    }
}

/// Carries out the edits of a file.
fn edits_from<F: Files>(
    alloc: Global,
    world: &mut World,
    folder: &Label,
    file: &EditFile<'_>,
    files: &mut F,
) -> Result<(), ProjectRefusal>
    requires { SayEdits file.now.words.now }
    ensures edits { let from = edit_file file.now.name file.now.words.now in
        UnlessFault (EditsFrom (F.held files.old) folder.now world.old from)
        (left_by result world.new) }
    ensures held { F.held files.new ≡ F.held files.old }
    ensures counted { CountsReads result (F.read_faults files.old) (F.read_faults files.new) }
    ensures no_write { F.write_faults files.new ≡ F.write_faults files.old }
{
    match find_file(alloc, folder, &file.name, files) {
        Ok(bytes) => edits_said(alloc, world, file, bytes.as_slice()),
        Err(why) => Err(why),
    }
}

/// Sets these tables, one after the other.
fn set_tables<F: Files>(
    alloc: Global,
    world: &mut World,
    folder: &Label,
    tables: &[Label],
    files: &mut F,
) -> Result<(), ProjectRefusal>
    ensures sets { UnlessFault (OneByOne (SetsTable (F.held files.old) folder.now)
        world.old tables.now) (left_by result world.new) }
    ensures held { F.held files.new ≡ F.held files.old }
    ensures counted { CountsReads result (F.read_faults files.old) (F.read_faults files.new) }
    ensures no_write { F.write_faults files.new ≡ F.write_faults files.old }
{
    for name in tables {
        match set_table(alloc, world, folder, name, files) {
            Ok(()) => {}
            Err(why) => return Err(why),
        }
    }
    Ok(())
}

/// The words of the lines of a space's file.
const SPACE_WORDS: [CommandWord; 4] = [
    CommandWord::Cells,
    CommandWord::Def,
    CommandWord::Allow,
    CommandWord::Params,
];

/// Carries out the edits of the files of these top spaces, one after the other.
fn edit_spaces<F: Files>(
    alloc: Global,
    world: &mut World,
    folder: &Label,
    tops: &[Label],
    files: &mut F,
) -> Result<(), ProjectRefusal>
    ensures edits { UnlessFault (ReadsSpaces (F.held files.old) folder.now tops.now world.old)
        (left_by result world.new) }
    ensures held { F.held files.new ≡ F.held files.old }
    ensures counted { CountsReads result (F.read_faults files.old) (F.read_faults files.new) }
    ensures no_write { F.write_faults files.new ≡ F.write_faults files.old }
{
    for top in tops {
        let name = space_file(alloc, top)?;
        let file = EditFile {
            name,
            words: &SPACE_WORDS,
        };
        match edits_from(alloc, world, folder, &file, files) {
            Ok(()) => {}
            Err(why) => return Err(why),
        }
    }
    Ok(())
}

/// Adds the name of a path at the top.
fn push_top(names: &mut Vec<Label>, path: &Path) -> Result<(), AllocError>
    ensures { let top = option_to_list (spec.top_name path.now) in
        OnOk result (names.new.items ≡ names.old.items ++ top) }
{
    match path.as_slice() {
        [top] => {
            let name = top.copy()?;
            names.push(name)?;
            return Ok(());
        }
        _ => return Ok(()),
    }
}

/// The names of the spaces at the top, in order of creation.
fn top_names(alloc: Global, text: &ModelText) -> Result<Vec<Label>, AllocError>
    ensures { IfOk result (λ names. names.items ≡ spec.tops text.now) }
{
    let spaces = text.spaces();
    let mut names = Vec::new(alloc);
    for place in 0..spaces.len() {
        let Some(space) = spaces.get(place) else {
            unreachable!()
        };
        push_top(&mut names, space.get().path())?;
    }
    return Ok(names);
}

/// The words of the lines of the file of references, and of that of inputs.
const REFS_WORDS: [CommandWord; 2] = [CommandWord::Ref, CommandWord::Global];

const INPUTS_WORDS: [CommandWord; 1] = [CommandWord::Input];

/// Carries out the references.
fn edit_refs<F: Files>(
    alloc: Global,
    world: &mut World,
    folder: &Label,
    files: &mut F,
) -> Result<(), ProjectRefusal>
    ensures edits { let from = edit_file spec.refs_file spec.refs_words in
        UnlessFault (EditsFrom (F.held files.old) folder.now world.old from)
        (left_by result world.new) }
    ensures held { F.held files.new ≡ F.held files.old }
    ensures counted { CountsReads result (F.read_faults files.old) (F.read_faults files.new) }
    ensures no_write { F.write_faults files.new ≡ F.write_faults files.old }
{
    let name = label_of(alloc, b"refs.mx")?;
    let file = EditFile {
        name,
        words: &REFS_WORDS,
    };
    edits_from(alloc, world, folder, &file, files)
}

/// Carries out the inputs.
fn edit_inputs<F: Files>(
    alloc: Global,
    world: &mut World,
    folder: &Label,
    files: &mut F,
) -> Result<(), ProjectRefusal>
    ensures edits { let from = edit_file spec.inputs_file spec.inputs_words in
        UnlessFault (EditsFrom (F.held files.old) folder.now world.old from)
        (left_by result world.new) }
    ensures held { F.held files.new ≡ F.held files.old }
    ensures counted { CountsReads result (F.read_faults files.old) (F.read_faults files.new) }
    ensures no_write { F.write_faults files.new ≡ F.write_faults files.old }
{
    let name = label_of(alloc, b"inputs.mx")?;
    let file = EditFile {
        name,
        words: &INPUTS_WORDS,
    };
    edits_from(alloc, world, folder, &file, files)
}

/// Carries out the references, and then the inputs.
fn edit_ends<F: Files>(
    alloc: Global,
    world: &mut World,
    folder: &Label,
    files: &mut F,
) -> Result<(), ProjectRefusal>
    ensures edits { UnlessFault (ReadsEnds (F.held files.old) folder.now world.old)
        (left_by result world.new) }
    ensures held { F.held files.new ≡ F.held files.old }
    ensures counted { CountsReads result (F.read_faults files.old) (F.read_faults files.new) }
    ensures no_write { F.write_faults files.new ≡ F.write_faults files.old }
{
    match edit_refs(alloc, world, folder, files) {
        Ok(()) => edit_inputs(alloc, world, folder, files),
        Err(why) => Err(why),
    }
}

/// Carries out the edits of all files: spaces, references, inputs.
fn read_edits<F: Files>(
    alloc: Global,
    world: &mut World,
    folder: &Label,
    files: &mut F,
) -> Result<(), ProjectRefusal>
    ensures edits { UnlessFault (ReadsEdits (F.held files.old) folder.now world.old)
        (left_by result world.new) }
    ensures held { F.held files.new ≡ F.held files.old }
    ensures counted { CountsReads result (F.read_faults files.old) (F.read_faults files.new) }
    ensures no_write { F.write_faults files.new ≡ F.write_faults files.old }
{
    let tops = top_names(alloc, world.text())?;
    match edit_spaces(alloc, world, folder, tops.as_slice(), files) {
        Ok(()) => edit_ends(alloc, world, folder, files),
        Err(why) => Err(why),
    }
}

/// Sets the tables that a model file names, and then carries out all edits.
fn read_tables<F: Files>(
    alloc: Global,
    model: &mut ModelFile,
    folder: &Label,
    files: &mut F,
) -> Result<(), ProjectRefusal>
    ensures reads { let laid = laid_of model.old.world model.old.tables.items in
        UnlessFault (ReadsTables (F.held files.old) folder.now laid)
        (left_by result model.new.world) }
    ensures held { F.held files.new ≡ F.held files.old }
    ensures counted { CountsReads result (F.read_faults files.old) (F.read_faults files.new) }
    ensures no_write { F.write_faults files.new ≡ F.write_faults files.old }
{
    match set_tables(
        alloc,
        &mut model.world,
        folder,
        model.tables.as_slice(),
        files,
    ) {
        Ok(()) => read_edits(alloc, &mut model.world, folder, files),
        Err(why) => Err(why),
    }
}

/// What the model file of a folder says.
fn read_model<F: Files>(
    alloc: Global,
    folder: &Label,
    files: &mut F,
) -> Result<ModelFile, ProjectRefusal>
    ensures says { IfOk result (λ m. OfFile (F.held files.old) folder.now spec.model_file
        ModelSays (Ok (laid_of m.world m.tables.items))) }
    ensures refused { IfErr result (λ why. UnlessFault (OfFile (F.held files.old) folder.now
        spec.model_file ModelSays) (Err why)) }
    ensures held { F.held files.new ≡ F.held files.old }
    ensures counted { CountsReads result (F.read_faults files.old) (F.read_faults files.new) }
    ensures no_write { F.write_faults files.new ≡ F.write_faults files.old }
{
    let name = model_name(alloc)?;
    match find_file(alloc, folder, &name, files) {
        Ok(bytes) => model_said(alloc, bytes.as_slice()),
        Err(why) => Err(why),
    }
}

/// The model that a folder of files says, or the first trouble in the order of reading: the model file, the tables that it names,
/// the top spaces, the references, the inputs. `ReadFault` comes only where the count of faults at reads rose. No file changes.
pub fn read_project<F: Files>(
    alloc: Global,
    dir: &Label,
    files: &mut F,
) -> Result<World, ProjectRefusal>
    ensures reads { Reads (F.held files.old) dir.now result }
    ensures held { F.held files.new ≡ F.held files.old }
    ensures counted { CountsReads result (F.read_faults files.old) (F.read_faults files.new) }
    ensures no_write { F.write_faults files.new ≡ F.write_faults files.old }
{
    let mut model = match read_model(alloc, dir, files) {
        Ok(model) => model,
        Err(why) => return Err(why),
    };
    match read_tables(alloc, &mut model, dir, files) {
        Ok(()) => Ok(model.world),
        Err(why) => Err(why),
    }
}
