//! Laws of plans, each the contract of a function that does nothing.
ghost use Rattle.std.specs.Prelude.{◌≡◌, ◌≤◌, ℕ, false, length, List, Ok};
ghost use Rattle.geo_schema.specs.Schemas.{Tables};
ghost use Rattle.row_source.specs.Handing.{IsPlanFor, LeavesOut};
ghost use Rattle.row_source.specs.Sources.{AreRowsOf};
ghost use Rattle.sql_expr.specs.Conditions.{kept};
ghost use Rattle.sql_expr.specs.declared.expr.Expr.{Expr};
ghost use Rattle.sql_plan.specs.Plans.{plan_of};
ghost use Rattle.write_set.specs.Overlay.{Table};

/// A row that the chosen plan of a statement doesn't hand out, and a pair of rows where there are two tables, is
/// dropped by the tests, of which none has a fault on it.
pub fn tests_drop_what_plans_leave_out()
    ensures { (tables : Tables) (numbers : List ℕ) (tests : List Expr) (rows : Table) → AreRowsOf tables rows →
        LeavesOut tables numbers (plan_of tables numbers tests) rows (λ cells. kept cells tests ≡ Ok false) }
{}

/// The chosen plan of a statement over one table or two names only what these have.
pub fn plans_fit_their_tables()
    ensures { (tables : Tables) (numbers : List ℕ) (tests : List Expr) → 1 ≤ length numbers → length numbers ≤ 2 →
        IsPlanFor tables numbers (plan_of tables numbers tests) }
{}
