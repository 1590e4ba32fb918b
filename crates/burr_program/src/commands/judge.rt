//! Lists of plans, judged pair by pair.

ghost use Rattle.std.specs.Prelude.{◌≡◌, [], MatchOption};
ghost use Rattle.burr_io.specs.Sink.{Puts};
ghost use Rattle.burr_io.specs.LineWriter.{lines_view};
ghost use Rattle.burr_runs.specs.Views.BenchText.{streams};
ghost use Rattle.burr_judge.specs.PlanEnds.{never};
ghost use Rattle.burr_judge.specs.StepEnds.{left_by};
ghost use Rattle.burr_judge.specs.Stops.{ResultOn};
ghost use Rattle.burr_program.specs.Commands.{CommandResult, FileResult, JudgeDone};
ghost use Rattle.burr_program.specs.FileFaults.{NoMemory};
ghost use Rattle.burr_program.specs.ListEnds.{IsPair, JudgeCommand, JudgeCommandBreaks, LineEnds, PairEnds, judged_line, max_status as max_of};
ghost use Rattle.burr_program.specs.Judging.{TellsJudged, bytes_of};

use crate::done::Done;
use crate::files::read_file;
use burr_io::{LineWriter, Sink, Source, VecSink, WriteFault, put_all, put_number};
use burr_judge::{
    CommandHandler, Fault, LineEnd, MAX_LINE, PlanInput, ReadText, Status, StepFault, Stop,
    answer_commands, report,
};
use burr_text::cut_at;
use std::marker::Model;
use std::rt::Files;

/// Judges the plans of a list: each line of the source names an assembly's text and a plan, a container or
/// a text, with a byte between them. It is answered by its number, a status and what `check` would print,
/// before the next line is read. Returns the greatest status of a line.
#[inline(never)]
pub fn judge<'a, F: Files + AllocGlobal, R: Source, W: Sink, const N: usize>(
    files: &F,
    end: LineEnd,
    separator: u8,
    source: &mut R,
    sink: &mut LineWriter<W, N>,
) -> Result<Done<'a>, Stop<'a>>
    requires fresh { sink.old.held ≡ [] }
    ensures { CommandResult (lines_view W.Sink) sink.old sink.new
        (JudgeDone end separator (left_by R.Source source.old source.new))
        (JudgeCommand end separator (left_by R.Source source.old source.new)) NoMemory
        (JudgeCommandBreaks end separator
        (streams R.Source source.old source.new W.Sink sink.old.sink sink.new.sink)) result }
{
    let mut judge = ListJudge {
        files,
        separator,
        known: None,
        count: 0,
        status: Status::Done,
    };
    answer_commands(end, &mut judge, source, sink)?;
    Ok(Done {
        status: judge.status,
        assembly: None,
        source: None,
        written: None,
    })
}

/// Judges the lines of a list, and counts them.
#[derive(Drop)]
struct ListJudge<'f, F: Files + AllocGlobal> {
    files: &'f F,
    /// What stands between the names of a pair.
    separator: u8,
    /// The assembly of the line before.
    known: Option<Known>,
    count: u64,
    /// The greatest status of a line.
    status: Status,
}

impl<'f, F: Files + AllocGlobal> Model for ListJudge<'f, F> {
    ghost use Rattle.burr_program.specs.ListEnds.{Tally};

    ghost Value = { Tally };

    ghost view = { λ judge. record {
      separator = judge.separator;
      count = judge.count;
      status = judge.status;
    } };
}

impl<'f, F: Files + AllocGlobal> CommandHandler for ListJudge<'f, F> {
    ghost use Rattle.burr_program.specs.ListEnds.{AnswersPair, AsksNothing};

    ghost answers = { AnswersPair };

    ghost wants = { AsksNothing };

    fn lines_are_short(&self) {}

    fn command<W: Sink>(&mut self, line: &[u8], sink: &mut W) -> Result<bool, StepFault> {
        let (status, said) = judge_line(self.files, self.separator, &mut self.known, line);
        self.tell(status, said.bytes(), sink)
    }
}

impl<'f, F: Files + AllocGlobal> ListJudge<'f, F> {
    /// Counts a judgement, and puts its line.
    fn tell<W: Sink>(
        &mut self,
        status: Status,
        said: &[u8],
        sink: &mut W,
    ) -> Result<bool, StepFault>
        ensures { TellsJudged W.Sink sink.old sink.new self.old status said.now result self.new }
    {
        self.count = self.count.saturating_add(1);
        self.status = max_status(self.status, status);
        put_judged(self.count, status, said, sink)?;
        Ok(true)
    }
}

/// What is said of a line.
#[derive(Drop)]
enum Said {
    Printed(Vec<u8>),
    Instead(&'static [u8]),
}

impl Said {
    fn bytes(&self) -> &[u8]
        ensures { result.now ≡ bytes_of self.now }
    {
        match self {
            Said::Printed(bytes) => bytes,
            Said::Instead(words) => words,
        }
    }
}

/// What is said of a line, and with which status: what `check` prints of the files that it names,
/// or that there is no pair, that a file can't be read, or that memory was refused.
fn judge_line<F: Files + AllocGlobal>(
    files: &F,
    separator: u8,
    known: &mut Option<Known>,
    line: &[u8],
) -> (Status, Said)
    ensures { LineEnds separator line.now (bytes_of result.1) result.0 }
{
    let Some((assembly, plan)) = pair_of(separator, line) else {
        return (Status::Refused, Said::Instead(b"refused pair\n"));
    };
    let mut said = VecSink::new(files.alloc());
    let done = judge_pair(files, known, assembly, plan, &mut said);
    match report(done, &mut said) {
        Ok(status) => (status, Said::Printed(said.into_bytes())),
        Err(Fault::Read(_)) => (Status::Failed, Said::Instead(b"cannot read\n")),
        Err(_) => (Status::Memory, Said::Instead(b"no memory\n")),
    }
}

/// Puts what `check` prints of an assembly's text and a plan. The assembly is kept.
fn judge_pair<'a, F: Files + AllocGlobal, W: Sink>(
    files: &F,
    known: &mut Option<Known>,
    assembly: &'a str,
    plan: &'a str,
    sink: &mut W,
) -> Result<Status, Stop<'a>>
    ensures { FileResult W.Sink sink.old sink.new PairEnds result }
{
    let kept = read_once(files, known.take(), assembly)?;
    let judged = kept.judge(files, plan, sink);
    *known = Some(kept);
    judged
}

/// An assembly by the name of its file.
#[derive(Drop)]
struct Known {
    name: Vec<u8>,
    text: ReadText,
}

impl Known {
    /// Puts what `check` prints of a plan.
    fn judge<'a, F: Files + AllocGlobal, W: Sink>(
        &self,
        files: &F,
        plan: &'a str,
        sink: &mut W,
    ) -> Result<Status, Stop<'a>>
        ensures { FileResult W.Sink sink.old sink.new PairEnds result }
    {
        let source = read_file(files, plan)?;
        self.text
            .check(files.alloc(), PlanInput::of(source.bytes()), sink)
    }
}

/// The assembly of a file: the one that is known, where it has this name, or else the file is read.
fn read_once<'a, F: Files + AllocGlobal>(
    files: &F,
    known: Option<Known>,
    name: &'a str,
) -> Result<Known, Fault<'a>> {
    if let Some(kept) = known {
        if kept.name.as_slice() == name.as_bytes() {
            return Ok(kept);
        }
    }
    let text = ReadText::new(files.alloc(), read_file(files, name)?.into_bytes())?;
    let name = Vec::from_slice(files.alloc(), name.as_bytes())?;
    Ok(Known { name, text })
}

/// The names of the assembly and the plan of a line.
fn pair_of(separator: u8, line: &[u8]) -> Option<(&str, &str)>
    ensures { MatchOption result (¬ IsPair separator line.now) (λ _. IsPair separator line.now) }
{
    if MAX_LINE <= line.len() {
        return None;
    }
    let (assembly, plan) = cut_at(line, separator)?;
    if assembly.is_empty() || plan.is_empty() || plan.contains(&separator) {
        return None;
    }
    Some((str::from_utf8(assembly).ok()?, str::from_utf8(plan).ok()?))
}

/// The status of the greater number.
fn max_status(a: Status, b: Status) -> Status
    ensures { result ≡ max_of a b }
{
    if a.code() < b.code() { b } else { a }
}

/// Puts the line of a judgement: its number, its status, and what is said, which has its own end.
fn put_judged<W: Sink>(
    number: u64,
    status: Status,
    said: &[u8],
    sink: &mut W,
) -> Result<(), WriteFault>
    ensures { Puts W.Sink sink.old sink.new (judged_line number status said.now) result }
{
    put_number(number, sink)?;
    put_all(b" ", sink)?;
    put_number(status.code(), sink)?;
    put_all(b" ", sink)?;
    put_all(said, sink)
}
