//! Records of steps, and going back by them.

ghost use Rattle.std.specs.Prelude.{◌≡◌, ◌<◌, length};
ghost use Rattle.burr_code.specs.declared.limits.TheConstants.{MOST_PROCEDURES};
ghost use Rattle.burr_code.specs.Meaning.{meaning};
ghost use Rattle.burr_state.specs.Rules.Undo.{change_of, record_of, laid_over};
ghost use Rattle.burr_state.specs.Views.Records.{kept_change};
ghost use Rattle.burr_state.specs.Views.StateViews.{IsOrderly};

use crate::effect::Mode;
use crate::program::Procedure;
use crate::state::BenchState;
use crate::undo::{Change, Undo};
use arrayvec::ArrayVec;
use burr_code::Instr;
use std::mem::replace;

impl BenchState {
    /// The record of the step that an instruction makes, in the procedure that runs.
    pub(crate) fn record(&self, instruction: &Instr<'_>, procedure: &Procedure<'_>) -> Undo
        ensures record { result ≡ record_of procedure.now self.now (meaning instruction.now) }
        ensures orderly { IsOrderly self.now }
    {
        Undo {
            pc: self.running.pc as u16,
            change: self.change(instruction, procedure),
        }
    }

    /// What an instruction changes besides the position, the steps and the mode, as it is now.
    fn change(&self, instruction: &Instr<'_>, procedure: &Procedure<'_>) -> Change
        ensures { kept_change result ≡ change_of procedure.now self.now (meaning instruction.now) }
    {
        match instruction {
            Instr::Halt | Instr::Jump(_) | Instr::Pick(_) => Change::Nothing,
            Instr::Grip(_) | Instr::Tray(_) => Change::Choice(self.tray, self.grip),
            Instr::Step(_) | Instr::Aside(..) => {
                let places = ArrayVec::try_from(self.places.as_slice()).unwrap();
                Change::Places(places, self.grip)
            }
            Instr::Call(_) => {
                Change::Deeper(ArrayVec::try_from(self.running.operands.as_slice()).unwrap())
            }
            Instr::Ret => Change::Higher(self.running.copied(), procedure.results),
            _other => {
                let operands = ArrayVec::try_from(self.running.operands.as_slice()).unwrap();
                Change::Numbers(self.running.slots, operands)
            }
        }
    }

    /// Lays a record's old values over the state: one step less, and the run goes on.
    pub(crate) fn undo(&mut self, undo: Undo)
        requires orderly { IsOrderly (laid_over undo self.old) }
        requires few { length (laid_over undo self.old).callers < MOST_PROCEDURES }
        ensures { self.new ≡ laid_over undo self.old }
    {
        self.steps = self.steps.saturating_sub(1);
        self.mode = Mode::Running;
        let pc = usize::from(undo.pc);
        match undo.change {
            Change::Nothing => self.running.pc = pc,
            Change::Numbers(slots, operands) => {
                self.running.slots = slots;
                self.running.operands = operands;
                self.running.pc = pc;
            }
            Change::Choice(tray, grip) => {
                self.tray = tray;
                self.grip = grip;
                self.running.pc = pc;
            }
            Change::Places(places, grip) => {
                self.places = places;
                self.grip = grip;
                self.running.pc = pc;
            }
            Change::Deeper(operands) => {
                let Some(mut caller) = self.callers.pop() else {
                    return;
                };
                caller.operands = operands;
                caller.pc = pc;
                self.running = caller;
            }
            Change::Higher(mut ended, results) => {
                ended.pc = pc;
                self.running.drop_many(results);
                let caller = replace(&mut self.running, ended);
                self.callers.push(caller);
            }
        }
    }
}
