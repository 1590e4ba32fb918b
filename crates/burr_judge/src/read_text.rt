ghost use Rattle.std.specs.Prelude.{◌≡◌, IfOk};
ghost use Rattle.burr_judge.specs.PlanEnds.{CheckTextEnds, never};
ghost use Rattle.burr_judge.specs.Stops.{ResultOn};

use crate::plan_input::PlanInput;
use crate::status::Status;
use crate::stop::Stop;
use crate::tasks::{check_input, check_text};
use burr_assembly::{Assembly, AssemblyFault};
use burr_blocking::{Blocking, RowTables};
use burr_io::Sink;
use std::alloc::{AllocError, Global};
use std::marker::Model;

/// An assembly's text that is read once for many plans: its tables are kept.
#[derive(Drop)]
pub struct ReadText {
    text: Vec<u8>,
    /// The tables of its assembly; `None` if the text is refused.
    tables: Option<RowTables<'static>>,
}

impl Model for ReadText {
    ghost use Rattle.std.specs.Prelude.{ℕ, List};
    ghost use Rattle.std.specs.Option.{ForSome};
    ghost use Rattle.burr_assembly.specs.Rules.Text.{IsText};

    ghost Value = { List ℕ };

    ghost view = { λ it. it.text.items };

    ghost invariant = { λ it. ForSome it.tables (λ t.
        IsText it.text.items (⟦<RowTables<'static> as Blocking>⟧.subject t)) };
}

impl ReadText {
    /// Reads an assembly's text, whether it is refused or not.
    pub fn new(alloc: Global, text: Vec<u8>) -> Result<ReadText, AllocError>
        ensures { IfOk result (λ it. it ≡ text.items) }
    {
        match Assembly::read(alloc, &text) {
            Ok(assembly) => {
                let tables = RowTables::owning(alloc, assembly)?;
                Ok(ReadText {
                    text,
                    tables: Some(tables),
                })
            }
            Err(AssemblyFault::Memory) => Err(AllocError),
            Err(_) => Ok(ReadText { text, tables: None }),
        }
    }

    /// Judges a plan for the text's assembly, as `check_text` does.
    pub fn check<'y, W: Sink>(
        &self,
        alloc: Global,
        plan: PlanInput<'_>,
        sink: &mut W,
    ) -> Result<Status, Stop<'y>>
        ensures { ResultOn W.Sink sink.old sink.new (CheckTextEnds self.now plan.entry) never
            result }
    {
        match &self.tables {
            Some(tables) => check_input(alloc, tables, plan, sink),
            None => check_text(alloc, &self.text, plan, sink),
        }
    }
}
