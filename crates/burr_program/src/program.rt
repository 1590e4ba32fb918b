//! What the program does with its words and its streams, and the status that it ends with.

ghost use Rattle.std.specs.Prelude.{◌≡◌, ◌≢◌, ◌≤◌, ◌<◌, [], codes, length, map, string_bytes};
ghost use Rattle.burr_io.specs.Sink.{Puts};
ghost use Rattle.burr_io.specs.LineWriter.{lines_view};
ghost use Rattle.burr_runs.specs.declared.input.BenchFault.TheVariants.{Memory};
ghost use Rattle.burr_runs.specs.Views.BenchText.{streams};
ghost use Rattle.burr_judge.specs.Faults.{complaint_of, line_of, status_of_fault};
ghost use Rattle.burr_judge.specs.Statuses.{code_of};
ghost use Rattle.burr_program.specs.Ends.{IsEnd, IsReplied, IsRun, TakesText, took_by};
ghost use Rattle.burr_program.specs.Finishing.{Answers, BareResult, Finishes, IsStatusOf};
ghost use Rattle.burr_program.specs.HowFar.{IsReady, Tells};

use crate::commands::do_job;
use crate::done::Done;
use burr_command::{Reply, Request, request_of};
use burr_io::{LineWriter, Sink, Source, WriteFault, put_all};
use burr_judge::{Fault, Status, Stop, put_fault, report};
use burr_runs::{BenchFault, bench_text};
use std::alloc::{AllocError, Global};
use std::io::ErrorKind;
use std::rt::Files;

/// The standard streams. Standard output holds back at most `N` bytes of lines, standard error `M`.
#[derive(Drop)]
pub struct Streams<R, W, E, const N: usize, const M: usize> {
    pub source: R,
    pub sink: LineWriter<W, N>,
    pub errors: LineWriter<E, M>,
}

/// Does all that the program does, and returns its exit status. With the program's name alone it runs the bare
/// code of standard input. With more words it does a command's job; `run`, `try` and `trace` read standard
/// input to its end, `judge` line by line, `step` and `drive` so after their verdict, and no other command
/// reads it. Help and the version go to standard output, and faults to standard error.
///
/// The status is 0 if all pieces are apart, a command has done what it is for, or help or the version was
/// printed; 1 if an input is refused, or the run trapped or was stopped; 2 for a fault of the words; 3 if a
/// file or a stream failed, or an input is too long; 4 if out of memory; 5 if the run waits for an answer.
pub fn run_words<
    F: Files + AllocGlobal,
    R: Source,
    W: Sink,
    E: Sink,
    const N: usize,
    const M: usize,
>(files: &F, words: &[String], io: &mut Streams<R, W, E, N, M>) -> u8
    requires fresh { io.old.sink.held ≡ [] }
    requires told { io.old.errors.held ≡ [] }
    ensures run { length words.now ≤ 1 → IsRun
        (streams R.Source io.old.source io.new.source W.Sink io.old.sink.sink io.new.sink.sink)
        (took_by E.Sink io.old.errors.sink io.new.errors.sink) result }
    ensures end { 1 < length words.now → IsEnd (map string_bytes words.now)
        (streams R.Source io.old.source io.new.source W.Sink io.old.sink.sink io.new.sink.sink)
        (took_by E.Sink io.old.errors.sink io.new.errors.sink) result }
{
    let alloc = files.alloc();
    if words.len() <= 1 {
        let done = run_bare(alloc, &mut io.source, &mut io.sink);
        return finish(done, &mut io.sink, &mut io.errors).code();
    }
    match request_of(alloc, words) {
        Ok(Request::Reply(reply)) => answer(&reply, &mut io.sink, &mut io.errors).code(),
        Ok(Request::Job(job)) => {
            let done = status_of(do_job(files, &job, io));
            finish(done, &mut io.sink, &mut io.errors).code()
        }
        Err(AllocError) => end_by(&Fault::Memory, &mut io.errors).code(),
    }
}

/// Ends if the words of the command line can't be had: returns 4 if out of memory, else 2, since a word is
/// not UTF-8. Standard error gets the line for it.
pub fn end_without_words<E: Sink, const N: usize>(
    kind: ErrorKind,
    errors: &mut LineWriter<E, N>,
) -> u8
    requires told { errors.old.held ≡ [] }
    ensures memory { kind ≡ ErrorKind.OutOfMemory → (result ≡ 4) × TakesText
        (took_by E.Sink errors.old.sink errors.new.sink) (complaint_of Memory) }
    ensures fault { kind ≢ ErrorKind.OutOfMemory → (result ≡ 2) × TakesText
        (took_by E.Sink errors.old.sink errors.new.sink)
        (codes "error: a word of the command line is not UTF-8\n") }
{
    if kind == ErrorKind::OutOfMemory {
        return end_by(&Fault::Memory, errors).code();
    }
    complain("error: a word of the command line is not UTF-8\n", errors).code()
}

/// Runs the bare code of the source, and writes its sheet.
#[inline(never)]
fn run_bare<'a, R: Source, W: Sink, const N: usize>(
    alloc: Global,
    source: &mut R,
    sink: &mut LineWriter<W, N>,
) -> Result<Status, Stop<'a>>
    ensures { BareResult
        (streams R.Source source.old source.new (lines_view W.Sink) sink.old sink.new)
        sink.old sink.new result }
{
    match bench_text(alloc, source, sink) {
        Ok(outcome) => Ok(Status::from(outcome)),
        Err(fault) => Err(Stop::Fault(Fault::from(fault))),
    }
}

/// Writes help or the version on standard output, or what is wrong with the command line on standard error.
/// Returns the status to end with.
fn answer<W: Sink, E: Sink, const N: usize, const M: usize>(
    reply: &Reply,
    sink: &mut LineWriter<W, N>,
    errors: &mut LineWriter<E, M>,
) -> Status
    requires fresh { sink.old.held ≡ [] }
    requires told { errors.old.held ≡ [] }
    ensures { IsReplied (string_bytes reply.now.text)
        (took_by W.Sink sink.old.sink sink.new.sink)
        (took_by E.Sink errors.old.sink errors.new.sink) (code_of result) }
{
    if reply.is_fault {
        return complain(&reply.text, errors);
    }
    let done = put_text(&reply.text, sink);
    finish(done, sink, errors)
}

/// Writes a text.
fn put_text<'a, W: Sink>(text: &str, sink: &mut W) -> Result<Status, Stop<'a>>
    ensures { Answers W.Sink sink.old sink.new text.now result }
{
    put_all(text.as_bytes(), sink)?;
    Ok(Status::Done)
}

/// Returns the status of a command that is done.
fn status_of<'a>(done: Result<Done<'a>, Stop<'a>>) -> Result<Status, Stop<'a>>
    ensures { IsStatusOf done.entry result }
{
    match done {
        Ok(done) => Ok(done.status),
        Err(stop) => Err(stop),
    }
}

/// Reports how a command ended: the text of a refusal goes to standard output, which is flushed, and a fault
/// to standard error. Returns the status to end with.
fn finish<W: Sink, E: Sink, const N: usize, const M: usize>(
    done: Result<Status, Stop<'_>>,
    sink: &mut LineWriter<W, N>,
    errors: &mut LineWriter<E, M>,
) -> Status
    requires ready { IsReady E.Sink errors.old }
    ensures { Finishes W.Sink E.Sink sink.old sink.new errors.old errors.new done.entry result }
{
    match report(done, sink) {
        Ok(status) => match sink.flush() {
            Ok(()) => status,
            Err(WriteFault) => end_by(&Fault::from(BenchFault::Write), errors),
        },
        Err(fault) => end_by(&fault, errors),
    }
}

/// Writes what is wrong with the command line on standard error, unless that has failed, and returns the
/// status to end with.
fn complain<E: Sink, const N: usize>(text: &str, errors: &mut LineWriter<E, N>) -> Status
    requires ready { IsReady E.Sink errors.old }
    ensures status { result ≡ Status.CommandLine }
    ensures told { Tells E.Sink errors.old errors.new text.now }
{
    if errors.failed() {
        return Status::CommandLine;
    }
    let _ = put_all(text.as_bytes(), errors);
    let _ = errors.flush();
    Status::CommandLine
}

/// Reports a fault on standard error, unless that has failed, and returns the status to end with.
fn end_by<E: Sink, const N: usize>(fault: &Fault<'_>, errors: &mut LineWriter<E, N>) -> Status
    requires ready { IsReady E.Sink errors.old }
    ensures status { result ≡ status_of_fault fault.now }
    ensures told { Tells E.Sink errors.old errors.new (line_of fault.now) }
{
    if errors.failed() {
        return fault.status();
    }
    let _ = put_fault(fault, errors);
    let _ = errors.flush();
    fault.status()
}
