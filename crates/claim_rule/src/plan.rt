//! The plan of a table, which only contracts see.
use std::marker::Brand;

/// Names the plan of a table: for each piece its pairs of a row and a claim's word.
pub trait ClaimPlan {
    ghost use Rattle.claim_rule.specs.Plan.{Pieces};

    ghost plan: { Pieces };
}

/// The plan of a call that passes `Brand` for it: there the caller's proof picks the plan, as a crate above does
/// whose plan is that of its input.
impl ClaimPlan for Brand {
    ghost use Rattle.std.specs.Prelude.{[]};

    ghost plan = { [] };
}

/// Names a plan, and how many shares the seat has that opens its table.
pub(crate) trait Opening {
    ghost use Rattle.std.specs.Prelude.{ℕ};
    ghost use Rattle.claim_rule.specs.Plan.{Pieces};

    ghost plan: { Pieces };

    ghost shares: { ℕ };
}

impl Opening for Brand {
    ghost use Rattle.std.specs.Prelude.{[]};

    ghost plan = { [] };

    ghost shares = { 1 };
}

/// Names the number that a step goes by: the piece that it finishes, how many shares a seat gives away, or how
/// many workers the table is for.
pub(crate) trait StepNumber {
    ghost use Rattle.std.specs.Prelude.{ℕ};

    ghost number: { ℕ };
}

impl StepNumber for Brand {
    ghost number = { 1 };
}
