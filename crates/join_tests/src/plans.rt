//! The plan that hands out everything, and the names of plans.
ghost use Rattle.std.specs.Prelude.{◌≡◌, ◌≤◌, false, length, List, Ok};
ghost use Rattle.geo_schema.specs.Schemas.{Tables};
ghost use Rattle.row_source.specs.Handing.{IsPlanFor, LeavesOut};
ghost use Rattle.sql_expr.specs.Conditions.{kept};
ghost use Rattle.sql_expr.specs.declared.expr.Expr.{Expr};
ghost use Rattle.write_set.specs.Overlay.{Table};

use geo_base::{NoMemory, TableNo};
use row_source::{Access, JoinKind, Plan, Second};

/// The plan by which each row, or each pair of rows of two tables, is handed out.
#[tactic(auto, using(crate::proofs::Whole::scan_fits, crate::proofs::Whole::scan_leaves_out, crate::proofs::Whole::nested_fits, crate::proofs::Whole::nested_leaves_out))]
pub fn whole_plan(tables: &[TableNo]) -> Plan
    requires some { 1 ≤ length tables.now }
    requires few { length tables.now ≤ 2 }
    ensures fits { (schema : Tables) → IsPlanFor schema tables.now result }
    ensures leaves_out { (schema : Tables) (tests : List Expr) (rows : Table) →
        LeavesOut schema tables.now result rows (λ cells. kept cells tests ≡ Ok false) }
{
    if tables.len() == 1 {
        return Plan {
            first: Access::Scan,
            second: None,
        };
    }
    Plan {
        first: Access::Scan,
        second: Some(Second {
            access: Access::Scan,
            join: JoinKind::Nested,
        }),
    }
}

fn access_name(access: &Access) -> &'static str {
    match access {
        Access::Point(_) => "point",
        Access::Range(_) => "range",
        Access::Index(_, _) => "index",
        Access::Scan => "scan",
    }
}

fn join_name(join: &JoinKind) -> &'static str {
    match join {
        JoinKind::Nested => " nested",
        JoinKind::ByKey(_) => " by key",
        JoinKind::Hashed(_, _) => " hashed",
    }
}

/// Writes how the rows of the plan's first table are reached, and behind a comma how those of the second one are, and found.
pub fn print_plan(out: &mut String, plan: &Plan) -> Result<(), NoMemory> {
    out.push_str(access_name(&plan.first))?;
    if let Some(second) = &plan.second {
        out.push_str(", ")?;
        out.push_str(access_name(&second.access))?;
        out.push_str(join_name(&second.join))?;
    }
    Ok(())
}
