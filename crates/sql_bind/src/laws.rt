//! Laws of bound statements, each the contract of a function that does nothing.
ghost use Rattle.std.specs.Prelude.{◌≡◌, ◌≢◌, ℕ, ◌++◌, true, List, [], ◌∷◌, Some, Ok, IfOk, IfErr, slice_get};
ghost use Rattle.geo_base.specs.Cells as cells;
ghost use Rattle.geo_base.specs.declared.cell.Cell.{Cell};
ghost use Rattle.geo_schema.specs.Rows as kinds;
ghost use Rattle.geo_schema.specs.Rows.{IsRow};
ghost use Rattle.geo_schema.specs.Schemas.{Tables, table_at};
ghost use Rattle.geo_schema.specs.declared.column.ColumnDef.{ColumnDef};
ghost use Rattle.sql_ast.specs.declared.statement.Statement.{Statement};
ghost use Rattle.sql_bind.specs.Names.{columns_of};
ghost use Rattle.sql_bind.specs.Sound.{types_of, IsTypedFor, IsSoundRow, IsSoundSet, IsSound};
ghost use Rattle.sql_bind.specs.Statements.{is_of_tables, bound_of};
ghost use Rattle.sql_bind.specs.declared.bound.Bound.{Bound};
ghost use Rattle.sql_bind.specs.declared.bound.ExprRow.{ExprRow};
ghost use Rattle.sql_bind.specs.declared.bound.SetTo.{SetTo};
ghost use Rattle.sql_bind.specs.declared.fault.BindFault.TheVariants as fault;
ghost use Rattle.sql_expr.specs.Rows.{HasTypes};
ghost use Rattle.sql_expr.specs.Types.{has_type};
ghost use Rattle.sql_expr.specs.Values.{value_of};
ghost use Rattle.sql_expr.specs.declared.expr.Expr.{Expr};
ghost use Rattle.sql_expr.specs.declared.value_type.ValueType.{ValueType};

use sql_expr::values_are_of_their_types;

/// A bound statement names tables and columns that there are, its expressions have their types, and the plain
/// items of a grouped query, and the columns that it is ordered by, are of columns of GROUP BY.
pub fn bound_statements_are_sound()
    ensures sound { (tables : Tables) (statement : Statement) (bound : Bound) →
        bound_of tables statement ≡ Ok bound → IsSound tables bound }
{}

/// A row of a table has the types of its columns, and a pair of rows those of the left one's and then those of
/// the right one's: over these the types of bound expressions are meant.
pub fn rows_have_the_types_of_columns()
    ensures rows { (tables : Tables) (table : ℕ) (row : List Cell) →
        IsRow (table_at tables table) row → HasTypes (types_of tables (table ∷ [])) row }
    ensures pairs { (tables : Tables) (left right : ℕ) (a b : List Cell) →
        IsRow (table_at tables left) a → IsRow (table_at tables right) b → HasTypes (types_of tables (left ∷ right ∷ [])) (a ++ b) }
{}

/// The value of a bound expression is of the type that is asked for where it stands; so a value of INSERT, and
/// one that SET gives, is NULL or a cell of its column's type.
pub fn bound_values_are_of_their_columns_types()
    ensures wanted { (wanted : ValueType) (columns : List ValueType) (row : List Cell) (e : Expr) →
        IsTypedFor wanted columns e → HasTypes columns row → IfOk (value_of row e) (λ c. has_type wanted c ≡ true) }
    ensures inserted { (columns : List ColumnDef) (places : List ℕ) (row : ExprRow) (k place : ℕ) (column : ColumnDef) (e : Expr) →
        IsSoundRow columns places row → slice_get row.values k ≡ Some e → slice_get places k ≡ Some place → slice_get columns place ≡ Some column →
        IfOk (value_of [] e) (λ c. cells.has_type (kinds.type_of column.kind) c ≡ true) }
    ensures updated { (tables : Tables) (table : ℕ) (set : SetTo) (row : List Cell) (column : ColumnDef) →
        IsSoundSet tables table set → IsRow (table_at tables table) row → slice_get (columns_of tables table) set.column ≡ Some column →
        IfOk (value_of row set.value) (λ c. cells.has_type (kinds.type_of column.kind) c ≡ true) }
{
    values_are_of_their_types();
}

/// Where there is memory, a statement of tables is bound or refused: no refusal says that there was none.
pub fn want_of_memory_is_no_refusal()
    ensures never { (tables : Tables) (statement : Statement) → is_of_tables statement ≡ true →
        IfErr (bound_of tables statement) (λ e. e ≢ fault.NoMemory) }
{}
