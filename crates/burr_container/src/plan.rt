use burr_code::limits::SLOTS;
use std::marker::Model;

/// A plan.
#[derive(Drop)]
pub struct Plan {
    /// The version of the format: 1, or 2, where procedures may have results.
    pub version: u16,
    /// The name of the assembly that it takes apart.
    pub name: Vec<u8>,
    /// How many pieces the assembly has, 2 to 32.
    pub pieces: u8,
    /// How many steps a run may take, 1 to 1,000,000.
    pub budget: u32,
    /// 1 to 16 procedures, main first.
    pub procs: Vec<Procedure>,
}

impl Model for Plan {
    ghost use Rattle.burr_container.specs.Rules.Plans.{Plan as PlanOf};

    ghost Value = { PlanOf };

    ghost view = { λ p.
        record {
          version = p.version;
          name = p.name.items;
          pieces = p.pieces;
          budget = p.budget;
          procedures = p.procs.items;
        } };
}

/// A procedure of a plan.
#[derive(Drop)]
pub struct Procedure {
    /// How many of the first slots are parameters: 0 to 4, of main 0.
    pub params: u8,
    /// How many results it has: 0 to 2, of main and in version 1 0.
    pub results: u8,
    /// What holds where it returns; main has none.
    pub exit: Option<ExitFrame>,
    /// 1 to 256 labels: their positions in the code, which begin at 0 and rise, and their frames.
    pub labels: Vec<(u16, Frame)>,
    /// 1 to 4,096 bytes.
    pub code: Vec<u8>,
}

impl Model for Procedure {
    ghost use Rattle.burr_container.specs.Rules.Plans.{PlanProcedure};

    ghost Value = { PlanProcedure };

    ghost view = { λ p.
        record {
          parameters = p.params;
          results = p.results;
          exit = p.exit;
          labels = p.labels.items;
          code = p.code.items;
        } };
}

/// A form of a plan: a constant, and a coefficient for each of the eight slots, which is 0 for a
/// slot that isn't live. In an exit frame the first symbols are the parameters, and the results
/// follow them.
#[derive(Clone, Copy, PartialEq, Eq)]
pub struct PlanForm {
    pub constant: i32,
    pub coefs: [i16; SLOTS],
}

impl Model for PlanForm {
    ghost use Rattle.burr_forms.specs.Rules.Forms.{Form};

    ghost Value = { Form };

    ghost view = { λ f. record { constant = f.constant; coefs = f.coefs } };

    ghost inverse = { λ f. record { constant = f.constant; coefs = f.coefs } };
}

/// Where a piece lies: apart from all others, or in a tray of 0 to 31, its offset given by a form
/// for x, y and z each.
#[derive(Clone, Copy)]
pub enum Place {
    Apart,
    On(u8, PlanForm, PlanForm, PlanForm),
}

/// What holds at a label.
#[derive(Drop)]
pub struct Frame {
    /// The current tray, 0 to 31.
    pub tray: u8,
    /// The grip: bit p is piece p.
    pub grip: u32,
    /// Of each slot, the lowest and the highest number that it may hold, if it is live.
    pub slots: [Option<(i16, i16)>; SLOTS],
    /// At most four forms that are at least 0.
    pub guards: Vec<PlanForm>,
    /// At most eight operands, the bottom first.
    pub stack: Vec<PlanForm>,
    /// How many steps a run may still take from here in this activation.
    pub cost: PlanForm,
    /// Where each piece lies.
    pub places: Vec<Place>,
}

impl Model for Frame {
    ghost use Rattle.burr_container.specs.Rules.Plans.{Frame as FrameOf};
    ghost use Rattle.burr_container.specs.Views.OwnedPlaces.{placements_of};

    ghost Value = { FrameOf };

    ghost view = { λ f.
        record {
          tray = f.tray;
          grip = f.grip;
          slots = f.slots;
          guards = f.guards.items;
          stack = f.stack.items;
          cost = f.cost;
          places = placements_of f.places.items;
        } };
}

/// What holds where a procedure returns. Its forms are over the parameters, which are the first
/// symbols, and after them the results.
#[derive(Drop)]
pub struct ExitFrame {
    /// The current tray, 0 to 31.
    pub tray: u8,
    /// The grip: bit p is piece p.
    pub grip: u32,
    /// Of each result, the lowest and the highest number that it may be.
    pub results: Vec<(i16, i16)>,
    /// At most four forms that are at least 0; in version 1 none.
    pub guards: Vec<PlanForm>,
    /// Where each piece lies.
    pub places: Vec<Place>,
}

impl Model for ExitFrame {
    ghost use Rattle.burr_container.specs.Rules.Plans.{ExitFrame as ExitFrameOf};
    ghost use Rattle.burr_container.specs.Views.OwnedPlaces.{placements_of};

    ghost Value = { ExitFrameOf };

    ghost view = { λ f.
        record {
          tray = f.tray;
          grip = f.grip;
          results = f.results.items;
          guards = f.guards.items;
          places = placements_of f.places.items;
        } };
}
