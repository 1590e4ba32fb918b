ghost use Rattle.std.specs.Prelude.{◌≡◌, ◌≤◌, IfOk};
ghost use Rattle.burr_state.specs.Views.Benches.{setup_of};
ghost use Rattle.burr_step.specs.Rules.Drive.{GoesTo};
ghost use Rattle.burr_step.specs.Views.Driving.{Answers, Arrives, Goes, IsReady, MovesOn, led_of};

use crate::drive::{Drive, Halt, Move, Standing};
use burr_assembly::Assembly;
use burr_bench::OwnedProgram;
use burr_blocking::Blocking;
use burr_verify::Accepted;
use std::alloc::{AllocError, Global};
use std::marker::Model;
use std::mem::replace;

/// A drive that keeps its program and its assembly, and so borrows nothing: it can be led by a program
/// in another language, which keeps it from call to call. Each call goes on where the one before
/// stopped; nothing is read or judged again.
#[derive(Drop)]
pub struct OwnedDrive {
    assembly: Assembly,
    program: OwnedProgram,
    standing: Standing,
}

impl Model for OwnedDrive {
    ghost use Rattle.burr_step.specs.Views.Driving.{Driving, IsLasting, resumed};

    ghost Value = { Driving };

    ghost view = { λ k. resumed k.assembly k.program k.standing };

    ghost invariant = { λ k. IsLasting (resumed k.assembly k.program k.standing) };
}

impl OwnedDrive {
    /// A run of an accepted plan before its first move.
    pub fn new<B: Blocking>(
        alloc: Global,
        accepted: &Accepted<'_, '_, B>,
    ) -> Result<OwnedDrive, AllocError>
        ensures { IfOk result (IsReady accepted.now.judged) }
    {
        let drive = Drive::new(accepted);
        let (assembly, program) = drive.keep(alloc)?;
        Ok(OwnedDrive {
            assembly,
            program,
            standing: drive.suspend(),
        })
    }

    /// As `Drive::next`: makes the next move, and tells it whole; or tells why there is no next
    /// move, and changes nothing.
    pub fn next(&mut self) -> Result<Move, Halt>
        ensures { MovesOn self.old result self.new }
    {
        let standing = replace(&mut self.standing, Standing::nowhere());
        let mut drive = Drive::resume(self.program.lend(), &self.assembly, standing);
        let next = drive.next();
        self.standing = drive.suspend();
        next
    }

    /// As `Drive::go_to`: goes on without telling the moves, until that of a number is made, which is not
    /// below that of the moves made, the caller's condition; or to where the run halts before it, and
    /// tells why.
    pub fn go_to(&mut self, number: u32) -> Result<(), Halt>
        requires { self.old.moves ≤ number }
        ensures goes { Goes self.old self.new (λ setup d e. GoesTo setup number d e) }
        ensures arrives { Arrives number (setup_of self.old.bench) result (led_of self.new) }
    {
        let standing = replace(&mut self.standing, Standing::nowhere());
        let mut drive = Drive::resume(self.program.lend(), &self.assembly, standing);
        let came = drive.go_to(number);
        self.standing = drive.suspend();
        came
    }

    /// As `Drive::answer`: answers the question of a number, where it is the one for which the run waits
    /// and the answer fits it. False where it is not, and then nothing changes.
    pub fn answer(&mut self, question: u32, answer: i32) -> bool
        ensures { Answers question answer self.old result self.new }
    {
        let standing = replace(&mut self.standing, Standing::nowhere());
        let mut drive = Drive::resume(self.program.lend(), &self.assembly, standing);
        let taken = drive.answer(question, answer);
        self.standing = drive.suspend();
        taken
    }

    /// How many moves were made.
    pub fn moves(&self) -> u32
        ensures { result ≡ self.now.moves }
    {
        self.standing.moves()
    }

    /// The assembly whose pieces are moved.
    pub fn assembly(&self) -> &Assembly
        ensures { result.now ≡ self.now.bench.assembly }
    {
        &self.assembly
    }
}
