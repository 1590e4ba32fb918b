//! Plans that are accepted.

ghost use Rattle.std.specs.Prelude.{◌≡◌, IfOk, IfErr};
ghost use Rattle.burr_assembly.specs.Rules.Homes.{homes_of};
ghost use Rattle.burr_container.specs.Rules.Plans.{Plan};
ghost use Rattle.burr_container.specs.Views.Containers.{IsContainer};
ghost use Rattle.burr_frames.specs.Rules.FramedPlans.{framed_plan};
ghost use Rattle.burr_verify.specs.Rules.Accepting.{judged, IsAccepted, MainCosts};
ghost use Rattle.burr_verify.specs.Rules.Judging.{Judging};
ghost use Rattle.burr_verify.specs.Rules.Pass.{Passed, Refuses};
ghost use Rattle.burr_verify.specs.Rules.PassLooks.{Looking};
ghost use Rattle.burr_verify.specs.Views.Judgements.{failed_check};

use crate::judging::verify_counted;
use crate::refusal::Refusal;
use burr_assembly::Assembly;
use burr_blocking::{Blocking, Looks};
use burr_container::Container;
use std::marker::Model;

/// A plan that is well framed for an assembly, and what answers for the assembly's pieces.
#[derive(Drop)]
pub struct Accepted<'a, 'c: 'a, B: Blocking> {
    container: &'a Container<'c>,
    blocking: &'a B,
}

impl<'a, 'c: 'a, B: Blocking> Model for Accepted<'a, 'c, B> {
    ghost use Rattle.burr_verify.specs.Rules.Accepting.{AcceptedWith, judged, IsAccepted};

    ghost Value = { AcceptedWith B };

    ghost view = { λ a. record {
      judged = judged a.container.now (B.subject a.blocking.now);
      blocking = a.blocking.now;
    } };

    ghost invariant = { λ a. IsAccepted (judged a.container.now (B.subject a.blocking.now)) };
}

/// Accepts a container's plan for the pieces of an assembly where `verify` finds nothing wrong;
/// else the refusal.
pub fn accept<'a, 'c: 'a, B: Blocking>(
    container: &'a Container<'c>,
    blocking: &'a B,
) -> Result<Accepted<'a, 'c, B>, Refusal>
    ensures ok { IfOk result (λ accepted.
        accepted.judged ≡ judged container.entry.now (B.subject blocking.entry.now)) }
    ensures given { IfOk result (λ accepted. accepted.blocking ≡ blocking.entry.now) }
    ensures accepted { IfOk result (λ accepted. IsAccepted accepted.judged) }
    ensures err { IfErr result (λ refusal. (p : Plan) → IsContainer container.entry.now p
        → Judging (B.subject blocking.entry.now).name (homes_of (B.subject blocking.entry.now))
        (framed_plan p) (Refuses (failed_check refusal))) }
{
    Ok(accept_counted(container, blocking)?.0)
}

/// Accepts as `accept` does, and tells how many looks at the pieces the judgement took, as
/// `verify_counted` counts them.
pub fn accept_counted<'a, 'c: 'a, B: Blocking>(
    container: &'a Container<'c>,
    blocking: &'a B,
) -> Result<(Accepted<'a, 'c, B>, u64), Refusal>
    ensures ok { IfOk result (λ counted.
        counted.0.judged ≡ judged container.entry.now (B.subject blocking.entry.now)) }
    ensures given { IfOk result (λ counted. counted.0.blocking ≡ blocking.entry.now) }
    ensures accepted { IfOk result (λ counted. IsAccepted counted.0.judged) }
    ensures looked { IfOk result (λ counted. (p : Plan) → IsContainer container.entry.now p
        → Looking (B.subject blocking.entry.now).name (homes_of (B.subject blocking.entry.now))
        (framed_plan p) Passed counted.1) }
    ensures err { IfErr result (λ refusal. (p : Plan) → IsContainer container.entry.now p
        → Judging (B.subject blocking.entry.now).name (homes_of (B.subject blocking.entry.now))
        (framed_plan p) (Refuses (failed_check refusal))) }
{
    let mut looks = Looks::new(blocking);
    verify_counted(container, &mut looks)?;
    let accepted = Accepted {
        container,
        blocking,
    };
    Ok((accepted, looks.count()))
}

impl<'a, 'c: 'a, B: Blocking> Accepted<'a, 'c, B> {
    /// The cost of main: no run of the plan makes more steps. It is within the plan's budget.
    pub fn cost(&self) -> u32
        ensures { MainCosts self.now.judged result }
    {
        let entry = self.container.frame(0, 0);
        entry.cost().constant as u32
    }

    /// The assembly that the plan is for.
    pub fn assembly(&self) -> &'a Assembly
        ensures { result.now ≡ self.now.judged.assembly }
    {
        self.blocking.assembly()
    }

    /// The container of the plan.
    pub fn plan(&self) -> &'a Container<'c>
        ensures plan { result.now ≡ self.now.judged.container }
        ensures accepted { IsAccepted self.now.judged }
    {
        self.container
    }

    /// What answers for the assembly's pieces.
    pub fn blocking(&self) -> &'a B
        ensures given { result.now ≡ self.now.blocking }
        ensures subject { B.subject result.now ≡ self.now.judged.assembly }
    {
        self.blocking
    }
}
