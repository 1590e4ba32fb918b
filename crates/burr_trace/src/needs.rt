//! The slots that the labels of a plan text need: what is read from there on, and what frames have.

use crate::arrivals::{Label, Labels};
use crate::fit::Slots;
use burr_code::Instr;
use burr_code::limits::{MOST_CODE, SLOTS};
use std::alloc::{AllocError, Global};

/// A way from a label to the next one in its procedure, and the slots that are written on it.
#[derive(Clone, Copy)]
struct Way {
    from: usize,
    to: usize,
    written: Slots,
}

/// The slots that each label of a plan text needs, by the labels' numbers.
#[derive(Drop)]
pub struct Needs {
    needed: Vec<Slots>,
    ways: Vec<Way>,
}

impl Needs {
    /// The parameters of each label's procedure, those that its frame has, and those that are read from
    /// there on before they are written.
    pub fn of(alloc: Global, labels: &Labels<'_, '_>) -> Result<Needs, AllocError> {
        let mut needs = Needs {
            needed: Vec::new(alloc),
            ways: Vec::new(alloc),
        };
        for (number, label) in labels.as_slice().iter().enumerate() {
            needs.needed.push(slots_of_frame(label, labels))?;
            needs.go_on_from(number, label, labels)?;
        }
        needs.spread();
        Ok(needs)
    }

    /// The slots that a label needs.
    pub fn at(&self, label: usize) -> Slots {
        self.needed.get(label).copied().unwrap_or(0)
    }

    /// Adds slots that a label needs.
    pub fn add(&mut self, label: usize, slots: Slots) {
        if let Some(needed) = self.needed.get_mut(label) {
            *needed |= slots;
        }
    }

    /// Adds to each label what a next one needs, where no number is stored on the way; whether any was
    /// added.
    fn spread_once(&mut self) -> bool {
        let mut is_added = false;
        for n in 0..self.ways.len() {
            let Some(way) = self.ways.get(n).copied() else {
                return is_added;
            };
            let more = self.at(way.to) & !way.written & !self.at(way.from);
            self.add(way.from, more);
            is_added = is_added || more != 0;
        }
        is_added
    }

    /// Adds to each label what any label needs that it leads to, where no number is stored on the way.
    pub fn spread(&mut self) {
        for _ in 0..self.needed.len() {
            if !self.spread_once() {
                return;
            }
        }
    }

    /// Goes over the code from a label to the next labels.
    fn go_on_from(
        &mut self,
        number: usize,
        label: &Label<'_>,
        labels: &Labels<'_, '_>,
    ) -> Result<(), AllocError> {
        let mut way = Way {
            from: number,
            to: number,
            written: 0,
        };
        let mut pc = label.pc;
        for _ in 0..MOST_CODE {
            let Some(instruction) = labels.plan.instruction_at(label.procedure, pc) else {
                return Ok(());
            };
            if !self.go_over(&instruction, &mut way, label.procedure, labels)? {
                return Ok(());
            }
            pc = pc.saturating_add(instruction.size());
            if let Some(next) = labels.at(label.procedure, pc) {
                return self.add_way(&way, next);
            }
        }
        Ok(())
    }

    /// Goes over an instruction on a way; whether the next one is gone to.
    fn go_over(
        &mut self,
        instruction: &Instr<'_>,
        way: &mut Way,
        procedure: usize,
        labels: &Labels<'_, '_>,
    ) -> Result<bool, AllocError> {
        match instruction {
            Instr::Load(slot) => self.add(way.from, only(*slot) & !way.written),
            Instr::Store(slot) => way.written |= only(*slot),
            Instr::Down(slot, label) => {
                self.add(way.from, only(*slot) & !way.written);
                self.add_way(way, labels.named(procedure, *label))?;
            }
            Instr::Jump(label) => {
                self.add_way(way, labels.named(procedure, *label))?;
                return Ok(false);
            }
            Instr::Pick(offer) => {
                for n in 0..offer.len() {
                    if let Some(label) = offer.get(n) {
                        self.add_way(way, labels.named(procedure, label))?;
                    }
                }
                return Ok(false);
            }
            Instr::Halt | Instr::Ret => return Ok(false),
            _ => {}
        }
        Ok(true)
    }

    /// Adds the way to a label.
    fn add_way(&mut self, way: &Way, to: usize) -> Result<(), AllocError> {
        self.ways.push(Way { to, ..*way })?;
        Ok(())
    }
}

/// The slots that the frame of a label has, as its text has it, and the parameters of its procedure.
fn slots_of_frame(label: &Label<'_>, labels: &Labels<'_, '_>) -> Slots {
    let parameters = labels.plan.parameters(label.procedure);
    let frame = labels.plan.frame(label.procedure, label.number);
    let mut slots = 0;
    for slot in 0..SLOTS as u8 {
        let is_live = matches!(&frame, Some(frame) if frame.slot(slot).is_some());
        if is_live || slot < parameters {
            slots |= 1 << slot;
        }
    }
    slots
}

/// The set of this slot alone.
fn only(slot: u8) -> Slots {
    1u8.checked_shl(u32::from(slot)).unwrap_or(0)
}
