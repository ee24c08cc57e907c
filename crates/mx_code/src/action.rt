//! What instructions do.
use mx_syntax::op::Op;
use mx_value::fault::FaultKind;
use mx_value::label::Label;
use mx_value::value::Value;

/// What an instruction does. What a run computes stands on a stack, above its locals. Each takes what
/// it speaks of from the stack. A jump says how many instructions it passes, and a jump back how far
/// before itself it leads.
#[derive(Drop)]
pub enum Action {
    /// Leaves a value.
    Const(Value),
    /// Leaves the value of the local at a place. It is a fault where that is not set.
    Local(usize),
    /// Leaves the value that a name stands for.
    Name(Label),
    /// Leaves what a name stands for that is called next: a value, or a function that a formula can
    /// always call.
    Callee(Label),
    /// Leaves the tuple of so many values.
    Tuple(usize),
    /// Leaves what an operator gives for a value.
    Unary(Op),
    /// Leaves what an operator gives for two values.
    Binary(Op),
    /// Leaves a value with so many `not` before it.
    Not(u32),
    /// Leaves whether a comparison of two values holds.
    Compare(Op),
    /// A comparison that is not the last of its chain: leaves its right part where it holds, or else
    /// jumps with False.
    Chain(Op, usize),
    /// Leaves whether a value is None, or where the flag is false, whether it is not.
    IsNone(bool),
    /// The same, not the last of its chain: leaves None where it holds, or else jumps with False.
    ChainNone(bool, usize),
    Jump(usize),
    /// Drops a value, and jumps where it is false.
    JumpUnless(usize),
    /// Jumps with a value whose truth is the flag, or else drops it.
    Decide(bool, usize),
    /// Drops a value.
    Pop,
    /// Leaves what a name stands for through a value.
    Attr(Label),
    /// Leaves a value at so many subscripts, which stand above it.
    Index(usize),
    /// Calls what stands below so many arguments.
    Call(usize),
    /// Begins to collect what a generator makes, above what is called with it.
    Gather,
    /// Leaves the items of a tuple, of which none was taken.
    Iterate,
    /// Takes the next item into the local at a place. Behind the last it drops them and jumps.
    NextItem(usize, usize),
    /// Drops a value, and jumps back where it is false.
    BackUnless(usize),
    /// Collects a value that a generator made, and jumps back. Where `any` or `all` is called and the
    /// value decides, it leaves the answer and passes the two instructions of the call.
    Collect(usize),
    /// Leaves the tuple that a generator made. Where `any` or `all` is called, it leaves the answer and
    /// passes the call.
    Made,
    Back(usize),
    /// Sets the local at a place.
    Store(usize),
    /// Begins a display.
    Display,
    /// Adds a reference of a name to a display.
    Refer(Label),
    /// Gives a display its base.
    Base,
    /// Ends the run with a display.
    ReturnDisplay,
    /// Ends the run with a value.
    Return,
    /// Ends the run with a fault.
    Fail(FaultKind),
}

/// An instruction, with the line of its statement in the printed formula, from 1.
#[derive(Drop)]
pub struct Instr {
    pub action: Action,
    pub line: u32,
}

/// A local in scope: its name, and its place among the locals of a run.
#[derive(Drop)]
pub struct Local {
    pub name: Label,
    pub place: usize,
}
