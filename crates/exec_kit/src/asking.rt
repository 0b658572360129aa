//! What a statement is answered, as a text: its lines, what it has changed and the net behind it, its plan, or its fault.
ghost use Rattle.std.specs.Prelude.{◌≡◌, [], IsTrue};
ghost use Rattle.row_source.specs.Sources.{AreRowsOf};
ghost use Rattle.sql_bind.specs.Sound.{IsSound, IsSoundSelect};
ghost use Rattle.sql_bind.specs.Statements as statements;
ghost use Rattle.write_set.specs.Overlay.{overlay};
ghost use Rattle.write_set.specs.Sets.{Rises};

use crate::counted::Counted;
use crate::doing::{do_delete, do_insert, do_lock, do_update};
use crate::printing::{print_answer, print_done, print_plan};
use geo_base::NoMemory;
use geo_schema::Schema;
use row_source::Steps;
use sql_ast::Statement;
use sql_bind::{Bound, BoundSelect, bind};
use sql_exec::select;
use sql_parse::parse;
use sql_plan::{plan_lines, plan_of};
use std::alloc::Global;
use std::sync::ledger::Ledger;
use std::test::Fail;
use write_set::WriteSet;

/// Whether a query is without order.
fn is_unordered(query: &BoundSelect) -> bool
    ensures { IsTrue result → query.now.order ≡ [] }
{
    query.order.items().is_empty()
}

fn print_explained(
    out: &mut String,
    alloc: Global,
    schema: &Schema,
    query: &BoundSelect,
) -> Result<(), NoMemory>
    requires { IsSoundSelect schema.now query.now }
{
    let tables = query.tables.items();
    let plan = plan_of(alloc, schema, tables, query.tests.items())?;
    let lines = plan_lines(alloc, schema, tables, &plan);
    drop(plan);
    print_plan(out, lines?.as_slice())
}

/// Writes what a bound statement is answered behind the net, in which its changes are made.
fn print_bound<L: Ledger>(
    out: &mut String,
    alloc: Global,
    schema: &Schema,
    source: &Counted,
    own: &mut WriteSet,
    bound: &Bound,
    steps: &mut Steps<L>,
) -> Result<(), Fail>
    requires sound { IsSound schema.now bound.now }
    requires schema { source.now.list.tables ≡ schema.now }
    requires rows { AreRowsOf schema.now source.now.list.rows }
    requires laid { source.now.list.rows ≡ overlay source.now.list.base own.old }
    requires base { Rises source.now.list.base }
{
    let printed = match bound {
        Bound::Select(query) => print_answer(out, select(alloc, query, source, schema, steps)),
        Bound::Lock(query) if is_unordered(query) => {
            let done = do_lock(alloc, query, source, own, schema, steps);
            print_done(out, done, own)
        }
        Bound::Insert(query) => {
            let done = do_insert(alloc, query, source, own, schema);
            print_done(out, done, own)
        }
        Bound::Update(query) => {
            let done = do_update(alloc, query, source, own, schema, steps);
            print_done(out, done, own)
        }
        Bound::Delete(query) => {
            let done = do_delete(alloc, query, source, own, schema, steps);
            print_done(out, done, own)
        }
        Bound::Explain(query) => print_explained(out, alloc, schema, query),
        _ => return Err("a query of another form".into()),
    };
    Ok(printed?)
}

/// Whether the statement is one that is bound.
fn is_of_tables(statement: &Statement) -> bool
    ensures { result ≡ statements.is_of_tables statement.now }
{
    match statement {
        Statement::Begin | Statement::BeginAsOf(_) | Statement::Commit | Statement::Rollback =>
            false,
        _ => true,
    }
}

/// Writes what the statement is answered behind the net.
fn print_statement<L: Ledger>(
    out: &mut String,
    alloc: Global,
    schema: &Schema,
    source: &Counted,
    own: &mut WriteSet,
    statement: &Statement,
    steps: &mut Steps<L>,
) -> Result<(), Fail>
    requires schema { source.now.list.tables ≡ schema.now }
    requires rows { AreRowsOf schema.now source.now.list.rows }
    requires laid { source.now.list.rows ≡ overlay source.now.list.base own.old }
    requires base { Rises source.now.list.base }
{
    if !is_of_tables(statement) {
        return Err("no statement of tables".into());
    }
    let bound = bind(alloc, statement, schema);
    let printed = match &bound {
        Ok(bound) => print_bound(out, alloc, schema, source, own, bound, steps),
        Err(_) => Err("a statement that isn't bound".into()),
    };
    drop(bound);
    printed
}

/// The statement of a text of at most as many bytes as a script's statements have.
fn statement_of(alloc: Global, text: &str) -> Result<Statement, Fail> {
    if text.len() > 16_384 {
        return Err("a statement that is too long".into());
    }
    Ok(parse(alloc, text)?)
}

/// Writes what the statement of a text is answered behind the net of the transaction, in which its changes are made. It has
/// to be one that writes or a query, and one with FOR UPDATE has to be without order.
pub fn print_text<L: Ledger>(
    out: &mut String,
    alloc: Global,
    schema: &Schema,
    source: &Counted,
    own: &mut WriteSet,
    text: &str,
    steps: &mut Steps<L>,
) -> Result<(), Fail>
    requires schema { source.now.list.tables ≡ schema.now }
    requires rows { AreRowsOf schema.now source.now.list.rows }
    requires laid { source.now.list.rows ≡ overlay source.now.list.base own.old }
    requires base { Rises source.now.list.base }
{
    let statement = statement_of(alloc, text)?;
    let printed = print_statement(out, alloc, schema, source, own, &statement, steps);
    drop(statement);
    printed
}
