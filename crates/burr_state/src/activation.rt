ghost use Rattle.std.specs.Prelude.{◌≡◌, ◌<◌, ◌≤◌, ◌↔◌, None, Some, [], ◌∷◌, ◌++◌, drop, length, replicate, reverse, get_or, IsTrue, MatchOption};
ghost use Rattle.burr_code.specs.declared.limits.TheConstants.{SLOTS, MOST_OPERANDS};
ghost use Rattle.burr_code.specs.Stacks.{top, top_two, top_many};
ghost use Rattle.burr_state.specs.Rules.Bench.{activation};
ghost use Rattle.burr_state.specs.Views.Effects.{CallsFor, slots_with};
ghost use Rattle.burr_state.specs.Views.Programs.{HasRoomFor};
ghost use Rattle.burr_state.specs.Rules.Numbers.{HasRoom, pushed, with_operands, with_slot};
ghost use Rattle.burr_state.specs.Views.StateViews.{at_start};

use crate::effect::Trap;
use crate::state::BenchState;
use arrayvec::ArrayVec;
use burr_code::limits::{MOST_OPERANDS, SLOTS};
use std::marker::Model;

/// A call of a procedure that has not returned: where it stands, its slots and its operands.
#[derive(Debug, Drop)]
pub struct Activation {
    /// The procedure's number.
    pub(crate) procedure: u8,
    /// Where the next instruction stands in the procedure's code.
    pub(crate) pc: usize,
    pub(crate) slots: [Option<i32>; SLOTS],
    /// The operands, the bottom first.
    pub(crate) operands: ArrayVec<i32, MOST_OPERANDS>,
}

impl Model for Activation {
    ghost use Rattle.std.specs.Prelude.{reverse};
    ghost use Rattle.burr_state.specs.Rules.Bench.{Activation as ActivationOf, activation};

    ghost Value = { ActivationOf };

    ghost view = { λ a. activation a.procedure a.pc a.slots (reverse a.operands.items) };
}

impl Activation {
    /// The value of a slot; None where it is empty.
    pub fn slot(&self, slot: u8) -> Option<i32>
        requires { slot < SLOTS }
        ensures { result ≡ get_or self.now.slots slot None }
    {
        self.slots[usize::from(slot)]
    }

    /// Puts a number into a slot.
    pub fn set_slot(&mut self, slot: u8, number: i32)
        requires { slot < SLOTS }
        ensures { self.new ≡ with_slot slot number self.old }
    {
        self.slots[usize::from(slot)] = Some(number);
    }

    /// Whether the operands have room for one more.
    pub fn has_room(&self) -> bool
        ensures { IsTrue result ↔ HasRoom self.now }
    {
        self.operands.len() < MOST_OPERANDS
    }

    /// Puts a number on top of the operands.
    pub fn push(&mut self, number: i32)
        requires { HasRoom self.old }
        ensures { self.new ≡ pushed number self.old }
    {
        self.operands.push(number);
    }

    /// Takes the top off the operands; None where there are none.
    pub fn pop(&mut self) -> Option<i32>
        ensures top { MatchOption result (top self.old.operands ≡ None)
            (λ number. top self.old.operands ≡ Some (number, self.new.operands)) }
        ensures rest { self.new ≡ with_operands self.new.operands self.old }
        ensures none { MatchOption result (self.new ≡ self.old) (λ number. Unit) }
    {
        self.operands.pop()
    }

    /// The top of the operands, and the one below; None where there are fewer than two.
    pub fn top_two(&self) -> Option<(i32, i32)>
        ensures { MatchOption result (top_two self.now.operands ≡ None)
            (λ two. top_two self.now.operands ≡ Some (two.0, two.1, drop 2 self.now.operands)) }
    {
        match self.operands.as_slice() {
            [.., below, top] => Some((*top, *below)),
            _ => None,
        }
    }

    /// Puts a number in place of the top of the operands and the one below.
    pub fn replace_two(&mut self, number: i32)
        requires { 2 ≤ length self.old.operands }
        ensures { self.new ≡ with_operands (number ∷ drop 2 self.old.operands) self.old }
    {
        self.operands.truncate(self.operands.len() - 2);
        self.operands.push(number);
    }

    /// Calls a procedure that has this many parameters and results: takes its arguments off the
    /// operands, the top as the last one, and gives the activation of the procedure. It traps with
    /// `MissingOperand` where there are fewer operands than parameters, and with `StackFull` where
    /// the operands that are left have no room for the results; a trap changes nothing.
    pub fn calls(&mut self, procedure: u8, parameters: u8, results: u8) -> Result<Activation, Trap>
        ensures calls { CallsFor self.old procedure parameters results result self.new }
        ensures few { length self.old.operands ≤ MOST_OPERANDS }
    {
        let Some(first) = self.operands.len().checked_sub(usize::from(parameters)) else {
            return Err(Trap::MissingOperand);
        };
        if MOST_OPERANDS < first + usize::from(results) {
            return Err(Trap::StackFull);
        }
        let slots = slots_of(&self.operands[first..]);
        self.operands.truncate(first);
        Ok(Activation {
            procedure,
            pc: 0,
            slots,
            operands: ArrayVec::new(),
        })
    }

    /// The topmost `count` operands, the top last; None where there are fewer.
    pub fn top_many(&self, count: u8) -> Option<ArrayVec<i32, MOST_OPERANDS>>
        ensures { MatchOption result (top_many count self.now.operands ≡ None)
            (λ numbers. (top_many count self.now.operands
            ≡ Some (reverse numbers.items, drop count self.now.operands))
            × (length numbers.items ≡ count)) }
    {
        let first = self.operands.len().checked_sub(usize::from(count))?;
        ArrayVec::try_from(&self.operands[first..]).ok()
    }

    /// Puts these numbers on top of the operands, the last one topmost.
    pub fn push_all(&mut self, numbers: &[i32])
        requires { HasRoomFor (length numbers.now) self.old }
        ensures { self.new
            ≡ with_operands (reverse numbers.now ++ self.old.operands) self.old }
    {
        self.operands.try_extend_from_slice(numbers).unwrap();
    }

    /// The same activation.
    pub fn copied(&self) -> Activation
        ensures { result ≡ self.now }
    {
        Activation {
            procedure: self.procedure,
            pc: self.pc,
            slots: self.slots,
            operands: ArrayVec::try_from(self.operands.as_slice()).unwrap(),
        }
    }

    /// Takes the topmost `count` operands off, or all where there are fewer.
    pub fn drop_many(&mut self, count: u8)
        ensures { self.new ≡ with_operands (drop count self.old.operands) self.old }
    {
        let kept = self.operands.len().saturating_sub(usize::from(count));
        self.operands.truncate(kept);
    }
}

/// Slots with these numbers in the first of them.
fn slots_of(numbers: &[i32]) -> [Option<i32>; SLOTS]
    requires { length numbers.now ≤ SLOTS }
    ensures { result ≡ slots_with numbers.now }
{
    let mut slots = [None; SLOTS];
    for slot in 0..numbers.len() {
        slots[slot] = numbers.get(slot).copied();
    }
    slots
}

impl Default for Activation {
    ghost is_default = { λ a. a ≡ activation 0 0 (replicate 8 None) [] };

    /// Main at its begin: empty slots and no operands.
    fn default() -> Activation {
        Activation {
            procedure: 0,
            pc: 0,
            slots: [None; SLOTS],
            operands: ArrayVec::new(),
        }
    }
}

/// Where a run stands, and nothing of what is run: it borrows nothing, so that it lasts while the run
/// is let lie. A bench goes on from it, over the same program.
#[derive(Debug, Drop)]
pub struct Suspended {
    pub(crate) state: BenchState,
}

impl Model for Suspended {
    ghost use Rattle.burr_state.specs.Rules.Bench.{BenchState as BenchStateOf};

    ghost Value = { BenchStateOf };

    ghost view = { λ s. s.state };
}

impl Suspended {
    /// The start of a run of no pieces, which stands in for a run while a bench goes on with that.
    pub fn nowhere() -> Suspended
        ensures { result ≡ at_start 0 }
    {
        Suspended {
            state: BenchState::start(0),
        }
    }
}
