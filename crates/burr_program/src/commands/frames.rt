ghost use Rattle.std.specs.Prelude.{◌≡◌, ◌∷◌, [], codes, IfErr, IfOk};
ghost use Rattle.burr_judge.specs.PlanEnds.{never};
ghost use Rattle.burr_judge.specs.Stops.{Refuses};
ghost use Rattle.burr_lines.specs.FilledTexts.{IsFilledIn};
ghost use Rattle.burr_program.specs.Commands.{CommandResult, DoneEnds, FramesDone, PutsNotes};
ghost use Rattle.burr_program.specs.FileFaults.{AnyText, CannotRewrite};
ghost use Rattle.burr_program.specs.Ends.{runs_line};
ghost use Rattle.burr_program.specs.HowFar.{IsReady, Tells, TellsRuns};

use crate::done::Done;
use crate::files::{SourceFile, check_out_not_input, read_file, write_file};
use crate::notes::{read_noted, reason_of_fault, try_noted, with_meaning};
use burr_asm::{AsmFault, assemble};
use burr_blocking::Blocking;
use burr_container::Container;
use burr_io::{LineWriter, Sink, put_all, put_words};
use burr_judge::{Refused, Status, Stop};
use burr_lines::Unframed;
use burr_trace::{Arrivals, Filled, Labels, MOST_RUNS, Questions, Sightings};
use itoa::Buffer;
use std::alloc::{AllocError, Global};
use std::rt::Files;

/// The number of runs is reported each time this many more were made.
const RUNS_A_LINE: usize = 100;

/// Writes a plan text to OUT, which may be no input, with a frame in place of each `auto`: one that agrees
/// with the runs with all answers that its questions have. An `auto` stays if no frame is found for it, and a
/// refusal says why. The number of runs is reported on standard error after each hundred.
///
/// # Errors
/// A run that does not reach its end is refused by what `try` prints of it, and OUT is left alone.
#[inline(never)]
pub fn frames<'a, F: Files + AllocGlobal, W: Sink, E: Sink, const N: usize>(
    files: &F,
    assembly: &'a str,
    text: &'a str,
    out: &'a str,
    sink: &mut W,
    errors: &mut LineWriter<E, N>,
) -> Result<Done<'a>, Stop<'a>>
    requires told { errors.old.held ≡ [] }
    ensures ends { CommandResult W.Sink sink.old sink.new
        (FramesDone assembly.entry.now text.entry.now out.entry.now) DoneEnds
        (CannotRewrite (assembly.entry.now ∷ text.entry.now ∷ []) (codes "ASSEMBLY" ∷ codes "TEXT" ∷ [])
        out.entry.now) never result }
    ensures told { TellsRuns E.Sink errors.old errors.new }
{
    let inputs = [("ASSEMBLY", assembly), ("TEXT", text)];
    check_out_not_input(files, &inputs, out)?;
    let drawing = read_file(files, assembly)?;
    let source = read_file(files, text)?;
    let Filled { text, left, notes } = fill_text(files.alloc(), &drawing, &source, errors)?;
    let written = write_file(files, out, text)?;
    let status = put_left(left, notes, sink)?;
    Ok(Done {
        status,
        assembly: Some(drawing),
        source: Some(source),
        written: Some(written),
    })
}

/// Writes the notes of a text that is filled in, after the refusal of the first line `auto` that is left.
fn put_left<'y, W: Sink>(
    left: Option<usize>,
    notes: String,
    sink: &mut W,
) -> Result<Status, Stop<'y>>
    ensures { PutsNotes W.Sink sink.old sink.new result }
{
    match left {
        None => {
            put_all(notes.as_bytes(), sink)?;
            Ok(Status::Done)
        }
        Some(line) => {
            let notes = with_meaning(notes, "frame")?;
            Refused::Line("frame", line).put(sink)?;
            put_all(notes.as_bytes(), sink)?;
            Ok(Status::Refused)
        }
    }
}

/// Fills in a plan text for an assembly.
#[inline(never)]
fn fill_text<'y, E: Sink, const N: usize>(
    alloc: Global,
    drawing: &SourceFile<'_>,
    source: &SourceFile<'_>,
    errors: &mut LineWriter<E, N>,
) -> Result<Filled, Stop<'y>>
    requires told { errors.old.held ≡ [] }
    ensures made { IfOk result (λ filled.
        IsFilledIn source.now.bytes.items filled.text.items) }
    ensures err { IfErr result (Refuses AnyText) }
    ensures told { TellsRuns E.Sink errors.old errors.new }
{
    let tables = read_noted(alloc, drawing)?;
    let unframed = Unframed::of(alloc, source.bytes())?;
    let blank = unframed.with_blanks()?;
    let bytes = match assemble(alloc, &blank) {
        Ok(bytes) => bytes,
        Err(fault) => return Err(refuse_own_line(alloc, source, &unframed, fault)?),
    };
    let container = Container::parse(&bytes)?;
    fill_by_runs(
        alloc, source, &container, &tables, &unframed, &blank, errors,
    )
}

/// Fills in a plan text by what holds in its runs.
fn fill_by_runs<'y, B: Blocking, E: Sink, const N: usize>(
    alloc: Global,
    source: &SourceFile<'_>,
    container: &Container<'_>,
    tables: &B,
    unframed: &Unframed<'_>,
    blank: &[u8],
    errors: &mut LineWriter<E, N>,
) -> Result<Filled, Stop<'y>>
    requires told { errors.old.held ≡ [] }
    ensures made { IfOk result (λ filled. IsFilledIn unframed.now filled.text.items) }
    ensures err { IfErr result (Refuses AnyText) }
    ensures told { TellsRuns E.Sink errors.old errors.new }
{
    let plan = source.beside(container, tables.assembly());
    let labels = Labels::of(alloc, plan, unframed, blank)?;
    let mut sightings = Sightings::new(alloc, &labels)?;
    let gaps = make_runs(alloc, &labels, tables, &mut sightings, errors)?;
    let mut filled = sightings.fill(unframed, &labels)?;
    filled.notes.push_str(gaps)?;
    Ok(filled)
}

/// Returns the refusal of a text whose frames say nothing, at the line of the text that has none.
fn refuse_own_line<'y>(
    alloc: Global,
    source: &SourceFile<'_>,
    unframed: &Unframed<'_>,
    fault: AsmFault,
) -> Result<Stop<'y>, AllocError>
    ensures { IfOk result (Refuses AnyText) }
{
    let (code, line) = fault.code_and_line().ok_or(AllocError)?;
    let line = unframed.own_line(line);
    let notes = reason_of_fault(alloc, source, code, line)?;
    Ok(Stop::Refused(Refused::Line(code, line), Some(notes)))
}

/// Makes at most 40,000 runs of a plan text, with all answers that its questions have. Returns which answers
/// were not tried.
fn make_runs<'y, B: Blocking, E: Sink, const N: usize>(
    alloc: Global,
    labels: &Labels<'_, '_>,
    tables: &B,
    sightings: &mut Sightings,
    errors: &mut LineWriter<E, N>,
) -> Result<&'static str, Stop<'y>>
    requires told { errors.old.held ≡ [] }
    ensures err { IfErr result (Refuses AnyText) }
    ensures told { TellsRuns E.Sink errors.old errors.new }
{
    let mut questions = Questions::new(alloc);
    for round in 0..MOST_RUNS / RUNS_A_LINE - 1 {
        if !make_hundred(alloc, labels, tables, &mut questions, sightings)? {
            return Ok(questions.gaps(true));
        }
        tell_runs((round + 1) * RUNS_A_LINE, errors);
    }
    let has_more = make_hundred(alloc, labels, tables, &mut questions, sightings)?;
    Ok(questions.gaps(!has_more))
}

/// Makes the next hundred runs, or those that are left. Returns whether there are more.
fn make_hundred<'y, B: Blocking>(
    alloc: Global,
    labels: &Labels<'_, '_>,
    tables: &B,
    questions: &mut Questions,
    sightings: &mut Sightings,
) -> Result<bool, Stop<'y>>
    ensures { IfErr result (Refuses AnyText) }
{
    for _ in 0..RUNS_A_LINE {
        if !make_run(alloc, labels, tables, questions, sightings)? {
            return Ok(false);
        }
    }
    Ok(true)
}

/// Makes a run. Returns whether there are more.
fn make_run<'y, B: Blocking>(
    alloc: Global,
    labels: &Labels<'_, '_>,
    tables: &B,
    questions: &mut Questions,
    sightings: &mut Sightings,
) -> Result<bool, Stop<'y>>
    ensures { IfErr result (Refuses AnyText) }
{
    let mut run = Arrivals::new(alloc, labels);
    let answers = questions.text(alloc)?;
    let (status, sheet) = try_noted(alloc, labels.plan, tables, answers.as_bytes(), &mut run)?;
    match (status, run.question()) {
        (Status::Done, _) => {
            sightings.add_run(run)?;
            Ok(questions.advance())
        }
        (Status::Waiting, Some(question)) => {
            run.close()?;
            questions.ask(question)?;
            Ok(true)
        }
        _ => {
            let note = questions.note(alloc)?;
            Err(Stop::Refused(Refused::Run(sheet), Some(note)))
        }
    }
}

/// Reports how many runs were made, unless standard error has failed.
fn tell_runs<E: Sink, const N: usize>(count: usize, errors: &mut LineWriter<E, N>)
    requires ready { IsReady E.Sink errors.old }
    ensures { Tells E.Sink errors.old errors.new (runs_line count) }
{
    if errors.failed() {
        return;
    }
    let mut buffer = Buffer::new();
    let words: [&[u8]; 3] = [b"frames:", buffer.format(count).as_bytes(), b"runs"];
    let _ = put_words(&words, errors);
    let _ = errors.flush();
}
