//! The answer to one command.
ghost use Rattle.std.specs.Prelude.{◌≡◌, ◌≤◌, [], Option, IfOk, OnOk, IsErrOf};
ghost use Rattle.mx_command_laws.specs.Commands.{IsProperCommand};
ghost use Rattle.mx_engine.specs.Engine.{first_state};
ghost use Rattle.mx_outside.specs.Files.{FileMap};
ghost use Rattle.mx_outside.specs.Outside.{Rose};
ghost use Rattle.mx_commands.specs.Step.{Step, AsksFile, command_at, run_state, CarriesOut, IsReadCommand, NeedsFile};

use crate::changes::edit;
use crate::evaluations::{evaluate, precedents};
use crate::held::{clear, held, successors};
use crate::settings::{limit, order};
use mx_engine::engine::Engine;
use mx_frames::steps::Steps;
use mx_outside::{Files, ReadFailure};
use mx_script::{Command, read_command};
use mx_text::form::push_form_block;
use mx_words::table::WORDS;
use std::alloc::{AllocError, Global};
use std::sync::ledger::Ledger;

/// The engine that answers the commands of a script, and the block of the command at hand.
#[derive(Drop)]
pub struct Interpreter {
    pub alloc: Global,
    pub engine: Engine,
    pub block: Vec<u8>,
}

impl Interpreter {
    /// An interpreter before the first command: the new model, and nothing held.
    pub fn new(alloc: Global) -> Result<Interpreter, AllocError>
        ensures { IfOk result (λ i. i.engine ≡ first_state) }
    {
        Ok(Interpreter {
            alloc,
            engine: Engine::new(alloc)?,
            block: Vec::new(alloc),
        })
    }

    /// Carries out the command that a text says, which begins in this line of a script, and puts
    /// its block in place of what stood there. `Failed` comes only where the file that the command
    /// asks for was not read, and then the engine is as before.
    pub fn answer<F: Files, L: Ledger>(
        &mut self,
        number: u64,
        text: &[u8],
        files: &mut F,
        steps: &mut Steps<L>,
    ) -> Result<(), ReadFailure>
        ensures step { let command = command_at number text.now in
            OnOk result (Step (run_state self.old.engine (F.held files.old)) command
            self.new.block.items (run_state self.new.engine (F.held files.new))) }
        ensures asks { IsErrOf result ReadFailure.Failed → AsksFile text.now }
        ensures unchanged { IsErrOf result ReadFailure.Failed → self.new.engine ≡ self.old.engine }
        ensures held { F.held files.new ≡ F.held files.old }
        ensures kept { OnOk result (F.read_faults files.new ≡ F.read_faults files.old) }
        ensures later { F.read_faults files.old ≤ F.read_faults files.new }
        ensures failed { IsErrOf result ReadFailure.Failed →
            Rose (F.read_faults files.old) (F.read_faults files.new) }
        ensures no_write { F.write_faults files.new ≡ F.write_faults files.old }
    {
        mx_command_laws::edits::laws();
        mx_command_laws::commands::laws();
        self.block.clear();
        match read_command(self.alloc, &WORDS, text) {
            Ok(command) => {
                return self.carry_out(command, files, steps);
            }
            Err(refusal) => {
                push_form_block(&mut self.block, number, refusal)?;
                return Ok(());
            }
        }
    }

    /// Does what a command says.
    fn carry_out<F: Files, L: Ledger>(
        &mut self,
        command: Command,
        files: &mut F,
        steps: &mut Steps<L>,
    ) -> Result<(), ReadFailure>
        requires empty { self.old.block.items ≡ [] }
        requires read { IsReadCommand command }
        requires proper { IsProperCommand command }
        ensures done { OnOk result (CarriesOut (F.held files.old) self.old.engine command
            self.new.block.items self.new.engine) }
        ensures needs { IsErrOf result ReadFailure.Failed → NeedsFile command }
        ensures unchanged { IsErrOf result ReadFailure.Failed → self.new.engine ≡ self.old.engine }
        ensures held { F.held files.new ≡ F.held files.old }
        ensures kept { OnOk result (F.read_faults files.new ≡ F.read_faults files.old) }
        ensures later { F.read_faults files.old ≤ F.read_faults files.new }
        ensures failed { IsErrOf result ReadFailure.Failed →
            Rose (F.read_faults files.old) (F.read_faults files.new) }
        ensures no_write { F.write_faults files.new ≡ F.write_faults files.old }
    {
        match command {
            Command::Table { name, file } => self.set_table(name, &file, files),
            inner => {
                carry_out_inside(self.alloc, &mut self.engine, &mut self.block, inner, steps)?;
                Ok(())
            }
        }
    }
}

/// Does what a command says that asks for no file.
fn carry_out_inside<L: Ledger>(
    alloc: Global,
    engine: &mut Engine,
    block: &mut Vec<u8>,
    command: Command,
    steps: &mut Steps<L>,
) -> Result<(), AllocError>
    requires empty { block.old.items ≡ [] }
    requires read { IsReadCommand command }
    requires proper { IsProperCommand command }
    requires inside { NeedsFile command → ⊥ }
    ensures { OnOk result ((files : Option FileMap) →
        CarriesOut files engine.old command block.new.items engine.new) }
{
    match command {
        Command::Edit(change) => return edit(engine, block, &change),
        Command::Table { name: _, file: _ } => unreachable!(),
        Command::Eval(node) => return evaluate(engine, block, &node, steps),
        Command::Precedents(node) => return precedents(alloc, engine, block, &node, steps),
        Command::Succs(node) => return successors(engine, block, &node),
        Command::Held(node) => return held(engine, block, node),
        Command::Clear(scope) => return clear(engine, block, &scope),
        Command::Limit(most) => return limit(engine, block, most),
        Command::Order(path) => return order(engine, block, &path),
    }
}
