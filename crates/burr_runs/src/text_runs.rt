ghost use Rattle.std.specs.Prelude.{◌≡◌, ◌≢◌, ◌≤◌, length, IfErr, IfOk, codes, OnErr};
ghost use Rattle.burr_io.specs.Sink.{Puts};
ghost use Rattle.burr_code.specs.declared.limits.TheConstants.{MOST_CODE};
ghost use Rattle.burr_runs.specs.declared.text_runs.Outcome.TheVariants.{Refused};
ghost use Rattle.burr_runs.specs.declared.input.BenchFault.TheVariants.{Write};
ghost use Rattle.burr_runs.specs.Rules.Refusals.{assembly_refusal};
ghost use Rattle.burr_runs.specs.Rules.Output.{IsOutput, IsTextOutput};
ghost use Rattle.burr_runs.specs.Views.BenchText.{PutsOutput, OutputFails, streams, Succeeds, Fails};
ghost use Rattle.burr_runs.specs.Rules.Headline.{PutsSafely, FailsSafely, EndsWell};
ghost use Rattle.burr_runs.specs.Rules.Verdicts.{PutsVerdict, FailsInVerdict};

use crate::input::{BenchFault, parse_input, read_whole};
use crate::lines::{put_accepted, put_assembly_refusal};
use crate::plan_refusal::PlanRefusal;
use crate::runs::{run, run_bare};
use burr_assembly::{Assembly, AssemblyFault};
use burr_bench::{Machine, a_well_framed_plan_runs_safely};
use burr_blocking::{Blocking, RowTables};
use burr_container::Container;
use burr_io::{Sink, Source, WriteFault, put_all};
use burr_state::pieces_never_overlap;
use burr_verify::{Accepted, a_fitting_plan_is_from_a_container, accept_counted};
use std::alloc::Global;

/// Reads an assembly's text and after it a last line `code` with 1 to 4,096 bytes as lower case
/// hexadecimal digits, runs this bare code on the bench, without answers and with a budget of
/// 1,000,000 steps, and writes the run's sheet. For another last line it writes `refused input`,
/// and for a faulty text its first fault's line.
///
/// Nothing is written before the source has ended. `Read` comes where a call of the source failed,
/// `TooLong` where it gave more than 16,777,216 bytes, `Write` where a call of the sink failed, and
/// `Memory` where a request for memory was refused.
pub fn bench_text<R: Source, W: Sink>(
    alloc: Global,
    source: &mut R,
    sink: &mut W,
) -> Result<Outcome, BenchFault>
    ensures ok { IfOk result (λ outcome. Succeeds
        (streams R.Source source.old source.new W.Sink sink.old sink.new) outcome) }
    ensures err { IfErr result (λ fault. Fails
        (streams R.Source source.old source.new W.Sink sink.old sink.new) fault) }
    ensures untouched { IfErr result (λ fault. fault ≢ Write → sink.new ≡ sink.old) }
{
    let input = read_whole(alloc, source)?;
    write_output(alloc, &input, sink)
}

/// Writes what is due for a whole input.
fn write_output<W: Sink>(alloc: Global, input: &[u8], sink: &mut W) -> Result<Outcome, BenchFault>
    ensures ok { IfOk result (λ outcome. PutsOutput (IsOutput input.now)
        (W.taken sink.old) (W.taken sink.new) outcome) }
    ensures err { IfErr result (λ fault. OutputFails (IsOutput input.now)
        (W.taken sink.old) (W.taken sink.new) (W.has_failed sink.new) fault) }
    ensures untouched { IfErr result (λ fault. fault ≢ Write → sink.new ≡ sink.old) }
{
    match parse_input(alloc, input)? {
        Some((text, code)) => write_text_output(alloc, text, &code, sink),
        None => Ok(refuse_input(sink)?),
    }
}

/// Writes what is due for an assembly's text with code after it.
fn write_text_output<W: Sink>(
    alloc: Global,
    text: &[u8],
    code: &[u8],
    sink: &mut W,
) -> Result<Outcome, BenchFault>
    requires { length code.now ≤ MOST_CODE }
    ensures ok { IfOk result (λ outcome. PutsOutput (IsTextOutput text.now code.now)
        (W.taken sink.old) (W.taken sink.new) outcome) }
    ensures err { IfErr result (λ fault. OutputFails (IsTextOutput text.now code.now)
        (W.taken sink.old) (W.taken sink.new) (W.has_failed sink.new) fault) }
    ensures untouched { IfErr result (λ fault. fault ≢ Write → sink.new ≡ sink.old) }
{
    match Assembly::read(alloc, text) {
        Ok(assembly) => {
            let tables = RowTables::build(alloc, &assembly)?;
            Ok(run_bare(&tables, code, sink)?)
        }
        Err(AssemblyFault::Memory) => Err(BenchFault::Memory),
        Err(fault) => Ok(refuse_text(text, fault, sink)?),
    }
}

/// Refuses an input whose text has a fault.
fn refuse_text<W: Sink>(
    text: &[u8],
    fault: AssemblyFault,
    sink: &mut W,
) -> Result<Outcome, WriteFault>
    ensures puts { Puts W.Sink sink.old sink.new (assembly_refusal text.now fault) result }
    ensures refused { IfOk result (λ outcome. outcome ≡ Refused) }
{
    put_assembly_refusal(text, fault, sink)?;
    Ok(Outcome::Refused)
}

/// Refuses an input whose last line is not a line with code.
fn refuse_input<W: Sink>(sink: &mut W) -> Result<Outcome, WriteFault>
    ensures puts { Puts W.Sink sink.old sink.new (codes "refused input\n") result }
    ensures refused { IfOk result (λ outcome. outcome ≡ Refused) }
{
    put_all(b"refused input\n", sink)?;
    Ok(Outcome::Refused)
}

/// Runs an accepted plan with these answers, and writes the run's sheet. The run meets no trap, and
/// makes no more steps than the plan's budget; it ends with every piece apart, or waits at a question
/// for which no answer is left.
pub fn run_plan<'a, 'c: 'a, B: Blocking, W: Sink>(
    accepted: &Accepted<'a, 'c, B>,
    answers: &[i32],
    sink: &mut W,
) -> Result<Outcome, WriteFault>
    ensures ok { IfOk result (PutsSafely W.Sink sink.old sink.new accepted.now.judged
        answers.now) }
    ensures ends { IfOk result EndsWell }
    ensures err { OnErr result (FailsSafely W.Sink sink.old sink.new accepted.now.judged
        answers.now) }
{
    a_well_framed_plan_runs_safely();
    a_fitting_plan_is_from_a_container();
    pieces_never_overlap();
    let mut machine = Machine::start(accepted);
    let assembly = machine.assembly();
    let budget = accepted.plan().header().budget;
    run(&mut machine, assembly, budget, answers, &mut (), sink)
}

/// Judges a container's plan for the pieces of an assembly, and puts the line that says so: `accepted
/// cost 4 budget 4 looks 2`, or the refusal. Whether the plan is accepted.
pub fn check<B: Blocking, W: Sink>(
    container: &Container<'_>,
    blocking: &B,
    sink: &mut W,
) -> Result<bool, WriteFault>
    ensures ok { IfOk result (PutsVerdict W.Sink sink.old sink.new container.now
        (B.subject blocking.now)) }
    ensures err { OnErr result (FailsInVerdict W.Sink sink.old sink.new container.now
        (B.subject blocking.now)) }
{
    let budget = container.header().budget;
    match accept_counted(container, blocking) {
        Ok((accepted, looks)) => {
            put_accepted(accepted.cost(), budget, looks, sink)?;
            Ok(true)
        }
        Err(refusal) => {
            PlanRefusal::new(refusal, blocking.assembly()).put(sink)?;
            Ok(false)
        }
    }
}

/// How a run ended, or that none was made.
#[derive(Clone, Copy, Debug, PartialEq, Eq)]
pub enum Outcome {
    /// All pieces are apart.
    Apart,
    /// The run waits for an answer, and none is left.
    Waiting,
    /// An instruction could not be carried out.
    Trapped,
    /// The budget was used up.
    Stopped,
    /// What was given is refused.
    Refused,
}
