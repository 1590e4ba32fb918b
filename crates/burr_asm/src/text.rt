mod code;
mod exit;
mod form;
mod frame;
mod front;
mod line;
mod names;
mod numbers;
mod outline;
mod procedure;
mod signature;
mod stage;
mod statement;
mod words;

ghost use Rattle.std.specs.Prelude.{◌≡◌, MatchResult};
ghost use Rattle.burr_asm.specs.Views.Reading.{ReadsPlan};
ghost use Rattle.burr_asm.specs.declared.text.front.Front.TheVariants.{AwaitsPlan};
ghost use Rattle.burr_asm.specs.Rules.Assembling.{IsAssembled, IsTextFault};

use crate::fault::AsmFault;
use crate::text::front::Front;
use burr_container::{Plan, write};
use burr_plantext::{a_judged_text_is_of_its_source, a_text_stands_for_a_plan_within_the_format};
use burr_text::cut_at;
pub use code::CodeLine;
pub use line::LineForm;
use std::alloc::Global;
pub use words::is_skipped;

/// The plan that a text stands for, or the text's first fault.
pub fn read_plan(alloc: Global, text: &[u8]) -> Result<Plan, AsmFault>
    ensures { ReadsPlan text.now result }
{
    read_lines(alloc, &mut Front::AwaitsPlan, text)
}

/// The same, with a front to which no line has come yet.
fn read_lines<'a>(alloc: Global, front: &mut Front<'a>, text: &'a [u8]) -> Result<Plan, AsmFault>
    requires { front.now ≡ AwaitsPlan }
    ensures { ReadsPlan text.now result }
{
    let mut rest = text;
    let mut line = 1;
    while !rest.is_empty() {
        let Some((bytes, more)) = cut_at(rest, b'\n') else {
            return Err(front.unended(rest, line));
        };
        front.add(alloc, bytes, line)?;
        rest = more;
        line += 1;
    }
    front.finish(alloc, line)
}

/// The container of the plan that a text stands for; or the text's first fault, exactly where it
/// stands for no plan; or `Memory` where a request for memory was refused.
pub fn assemble(alloc: Global, text: &[u8]) -> Result<Vec<u8>, AsmFault>
    ensures { MatchResult result
        (λ bytes. IsAssembled text.now bytes.items)
        (IsTextFault text.now) }
{
    let plan = read_plan(alloc, text)?;
    a_judged_text_is_of_its_source();
    a_text_stands_for_a_plan_within_the_format();
    Ok(write(alloc, &plan)?)
}
