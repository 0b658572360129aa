//! The rule of a table, and what each kind of step tells.
use crate::plan::{Opening, StepNumber};
use crate::size::TableSize;
use crate::view::ClaimView;
use atomic_table::{Join, Play, Split, TableRule};
use std::marker::PhantomData;

/// The rule; its key is the table's size.
pub struct ClaimRule;

impl TableRule<(), ClaimView, TableSize> for ClaimRule {
    ghost use Rattle.claim_rule.specs.Rule.{Holds};
    ghost use Rattle.claim_rule.specs.Views.{closed_view};

    ghost holds = { Holds };

    ghost first = { λ _. closed_view };
}

/// Gives the table its plan.
pub(crate) struct Open<Q> {
    opening: PhantomData<Q>,
}

impl<Q: Opening> Play<(), ClaimView> for Open<Q> {
    ghost use Rattle.claim_rule.specs.inner.Steps.{Opens};

    ghost then = { Opens Q.plan Q.shares };
}

/// Draws a claim piece.
pub(crate) struct DrawClaim;

impl Play<(), ClaimView> for DrawClaim {
    ghost use Rattle.claim_rule.specs.inner.Steps.{DrawsClaim};

    ghost then = { DrawsClaim };
}

/// Claims a row.
pub(crate) struct ClaimRow;

impl Play<(), ClaimView> for ClaimRow {
    ghost use Rattle.claim_rule.specs.inner.Steps.{ClaimsRow};

    ghost then = { ClaimsRow };
}

/// Finishes a piece.
pub(crate) struct Finish<Q> {
    piece: PhantomData<Q>,
}

impl<Q: StepNumber> Play<(), ClaimView> for Finish<Q> {
    ghost use Rattle.claim_rule.specs.inner.Steps.{Finishes};

    ghost then = { Finishes Q.number };
}

/// Looks at done.
pub(crate) struct SeeDone<Q> {
    workers: PhantomData<Q>,
}

impl<Q: StepNumber> Play<(), ClaimView> for SeeDone<Q> {
    ghost use Rattle.claim_rule.specs.inner.Steps.{SeesDone};

    ghost then = { SeesDone Q.number };
}

/// Draws a judging piece.
pub(crate) struct DrawJudge;

impl Play<(), ClaimView> for DrawJudge {
    ghost use Rattle.claim_rule.specs.inner.Steps.{DrawsJudge};

    ghost then = { DrawsJudge };
}

/// Reads a header.
pub(crate) struct ReadHeader;

impl Play<(), ClaimView> for ReadHeader {
    ghost use Rattle.claim_rule.specs.inner.Steps.{ReadsHeader};

    ghost then = { ReadsHeader };
}

/// Shows a seat that no number stands twice in its lists, and which stand there.
pub(crate) struct Settle<Q> {
    workers: PhantomData<Q>,
}

impl<Q: StepNumber> Play<(), ClaimView> for Settle<Q> {
    ghost use Rattle.claim_rule.specs.inner.Steps.{Settles};

    ghost then = { Settles Q.number };
}

/// Splits a seat.
pub(crate) struct Part<Q> {
    shares: PhantomData<Q>,
}

impl<Q: StepNumber> Split<ClaimView> for Part<Q> {
    ghost use Rattle.claim_rule.specs.Views.{shares_kept, shares_given};

    ghost left = { shares_kept Q.number };

    ghost right = { shares_given Q.number };
}

/// Joins a seat.
pub(crate) struct TakeIn;

impl Join<ClaimView> for TakeIn {
    ghost use Rattle.claim_rule.specs.Views.{views_joined, spent_view};

    ghost both = { views_joined };

    ghost spent = { spent_view };
}
