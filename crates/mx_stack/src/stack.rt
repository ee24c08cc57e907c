//! The stack of all runs in flight.
ghost use Rattle.std.specs.Prelude.{◌≡◌, ◌≤◌, ◌∷◌, ◌++◌, [], length, List, OnOk, MatchOption, Some, None, map, slice_get, slice_set};
ghost use Rattle.mx_code_law.specs.States.{State, state};
ghost use Rattle.mx_code_law.specs.Laws.{begun};
ghost use Rattle.mx_stack.specs.Slots.{local_slots, told};
ghost use Rattle.mx_stack.specs.Flight.{at_back, at_next, at_past, idle, local_of, no_run, on_top, with_local, with_slot};

use crate::slot::Slot;
use mx_value::value::Value;
use std::alloc::{AllocError, Global};
use std::marker::Model;

/// Where a run stands: its place in its code, where its locals begin, and where what is on its stack does.
#[derive(Clone, Copy, Debug, PartialEq, Eq)]
pub struct Place {
    pub pc: usize,
    pub base: usize,
    pub floor: usize,
}

/// The locals and the slots of all runs in flight, those of the run on top last. Contracts see each
/// run apart.
#[derive(Drop)]
pub struct Stack {
    at: Place,
    below: Vec<Place>,
    slots: Vec<Slot>,
}

impl Model for Stack {
    ghost use Rattle.std.specs.Prelude.{◌∷◌, length, map, reverse};
    ghost use Rattle.std.specs.Coded.{codes};
    ghost use Rattle.mx_value.specs.contracts.value.Value as value;
    ghost use Rattle.mx_value.specs.contracts.value.Segment as segment;
    ghost use Rattle.mx_stack.specs.Slots.{told};
    ghost use Rattle.mx_stack.specs.Flight.{AreNested, Flight, flight_at};

    ghost Value = { Flight };

    ghost coded = { Prim.hlevel (codes, value.the_row.coded, segment.the_row.coded) };

    ghost view = { λ s. flight_at s.at (reverse s.below.items) (map told s.slots.items) };

    ghost invariant = { λ s. AreNested (s.at ∷ reverse s.below.items) (length s.slots.items) };
}

/// The place of a run that begins above so many slots.
const fn place_above(slots: usize) -> Place
    ensures { result ≡ record { pc = 0; base = slots; floor = slots } }
{
    Place {
        pc: 0,
        base: slots,
        floor: slots,
    }
}

impl Stack {
    /// A stack with no run in flight.
    pub fn new(alloc: Global) -> Stack
        ensures { result ≡ no_run }
    {
        Stack {
            at: place_above(0),
            below: Vec::new(alloc),
            slots: Vec::new(alloc),
        }
    }

    /// Drops all runs.
    pub fn clear(&mut self)
        ensures { self.new ≡ no_run }
    {
        self.at = place_above(0);
        self.below.clear();
        self.slots.clear();
    }

    /// The place of the run on top in its code.
    #[inline(always)]
    pub fn pc(&self) -> usize
        ensures { result ≡ self.now.top.pc }
    {
        self.at.pc
    }

    /// Takes the topmost slot of the run on top.
    #[inline(always)]
    pub fn pop(&mut self) -> Option<Slot>
        ensures { MatchOption result ((self.old.top.stack ≡ []) × (self.new ≡ self.old))
            (λ x. self.old ≡ on_top (with_slot (told x) self.new.top) self.new) }
    {
        if self.slots.len() <= self.at.base {
            return None;
        }
        self.slots.pop()
    }

    /// Puts a slot on the run on top.
    #[inline(always)]
    pub fn push(&mut self, slot: Slot) -> Result<(), AllocError>
        ensures { OnOk result (self.new ≡ on_top (with_slot (told slot) self.old.top) self.old) }
    {
        self.slots.push(slot)?;
        Ok(())
    }

    /// Puts a slot on the run on top, which goes on behind its instruction.
    #[inline(always)]
    pub fn leave(&mut self, slot: Slot) -> Result<(), AllocError>
        ensures { OnOk result
            (self.new ≡ on_top (at_next (with_slot (told slot) self.old.top)) self.old) }
    {
        self.push(slot)?;
        self.advance()
    }

    /// The run on top goes on behind its instruction, and passes so many further ones.
    #[inline(always)]
    pub fn pass(&mut self, count: usize) -> Result<(), AllocError>
        ensures { OnOk result (self.new ≡ on_top (at_past count self.old.top) self.old) }
    {
        let Some(next) = self.at.pc.checked_add(1) else {
            return Err(AllocError);
        };
        let Some(place) = next.checked_add(count) else {
            return Err(AllocError);
        };
        self.at.pc = place;
        Ok(())
    }

    /// The run on top goes so many instructions back.
    #[inline(always)]
    pub fn go_before(&mut self, count: usize)
        ensures { self.new ≡ on_top (at_back count self.old.top) self.old }
    {
        self.at.pc = self.at.pc.saturating_sub(count);
    }

    /// The run on top goes on behind its instruction.
    #[inline(always)]
    pub fn advance(&mut self) -> Result<(), AllocError>
        ensures { OnOk result (self.new ≡ on_top (at_next self.old.top) self.old) }
    {
        let Some(next) = self.at.pc.checked_add(1) else {
            return Err(AllocError);
        };
        self.at.pc = next;
        Ok(())
    }

    /// A local of the run on top, as it stands: it may not be set.
    #[inline(always)]
    pub fn local(&self, place: usize) -> Option<&Slot>
        ensures { MatchOption result (slice_get self.now.top.locals place ≡ None)
            (λ x. slice_get self.now.top.locals place ≡ Some (local_of (told x.now))) }
    {
        let at = self.at.floor.checked_add(place)?;
        if self.at.base <= at {
            return None;
        }
        let slot = self.slots.get(at)?;
        Some(slot)
    }

    /// Sets a local of the run on top, where it has one at this place.
    pub fn set_local(&mut self, place: usize, value: Value)
        ensures { self.new ≡ on_top (with_local place value self.old.top) self.old }
    {
        let Some(at) = self.at.floor.checked_add(place) else {
            return;
        };
        if at < self.at.base {
            put(&mut self.slots, at, Slot::Holds(value));
        }
    }

    /// A run begins above all others, with nothing on its stack.
    #[inline(always)]
    pub fn begin(&mut self) -> Result<(), AllocError>
        ensures { OnOk result
            (self.new ≡ record { top = idle; below = self.old.top ∷ self.old.below }) }
    {
        self.below.push(self.at)?;
        self.at = place_above(self.slots.len());
        Ok(())
    }

    /// The run on top, of which nothing has begun, enters its code with these arguments as its first
    /// locals and so many in all.
    #[inline(always)]
    pub fn enter(
        &mut self,
        alloc: Global,
        arguments: &[Value],
        size: usize,
    ) -> Result<(), AllocError>
        ensures { OnOk result (self.old.top ≡ idle →
            self.new ≡ on_top (state 0 [] (begun size arguments.now)) self.old) }
    {
        push_locals(alloc, &mut self.slots, arguments, size)?;
        self.at.pc = 0;
        self.at.base = self.slots.len();
        Ok(())
    }

    /// The run on top is over, and the one below it goes on.
    pub fn end(&mut self)
        ensures { (s : State) (others : List State) → self.old.below ≡ s ∷ others →
            self.new ≡ record { top = s; below = others } }
    {
        if let Some(place) = self.below.pop() {
            self.slots.truncate(self.at.floor);
            self.at = place;
        }
    }
}

/// Puts a slot in the place of one, where there is one.
fn put(slots: &mut Vec<Slot>, at: usize, slot: Slot)
    ensures { slots.new.items ≡ slice_set slots.old.items at slot }
{
    if at < slots.len() {
        slots[at] = slot;
    }
}

/// The arguments are the next locals, and behind them stand others that are not set, so many in all.
#[inline(always)]
fn push_locals(
    alloc: Global,
    slots: &mut Vec<Slot>,
    arguments: &[Value],
    size: usize,
) -> Result<(), AllocError>
    ensures pushed { OnOk result
        (map told slots.new.items ≡ map told slots.old.items ++ local_slots size arguments.now) }
    ensures longer { length slots.old.items ≤ length slots.new.items }
{
    for argument in arguments {
        slots.push(Slot::Holds(argument.copy(alloc)?))?;
    }
    for _ in 0..size.saturating_sub(arguments.len()) {
        slots.push(Slot::Unset)?;
    }
    Ok(())
}
