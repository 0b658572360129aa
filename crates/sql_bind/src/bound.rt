//! Bound statements.

use geo_base::{Many, TableNo};
use geo_schema::PlaceList;
use sql_expr::Expr;

/// The numbers of tables, the left one first.
pub type TableList = Many<TableNo>;

/// Expressions, as the conjuncts of a condition or the values of a row.
pub type ExprList = Many<Expr>;

/// Columns by their numbers through the left table and then the right one.
pub type ColumnNoList = Many<u16>;

/// The items of a query.
pub type ItemList = Many<Item>;

/// What a query sorts by, the first first.
pub type SortList = Many<Sort>;

/// The rows of an INSERT.
pub type ExprRowList = Many<ExprRow>;

/// What an UPDATE sets.
pub type SetToList = Many<SetTo>;

/// What a query answers of each row, pair or group.
#[derive(Drop)]
pub enum Item {
    /// The value of an expression, which in a grouped query has columns of GROUP BY alone.
    Plain(Expr),
    /// `COUNT(*)`: how many rows or pairs there are.
    CountAll,
    /// How many of them have a value that isn't NULL.
    Count(Expr),
    /// The sum of the values, which are numbers.
    Sum(Expr),
    /// The least of the values.
    Min(Expr),
    /// The greatest of them.
    Max(Expr),
}

/// What a query sorts by.
#[derive(Clone, Copy)]
pub enum SortBy {
    /// An item by its number, from 0 on.
    Item(u16),
    /// A column by its number, from 0 on, through the left table and then the right one.
    Column(u16),
}

/// One thing that a query sorts by.
#[derive(Clone, Copy)]
pub struct Sort {
    pub by: SortBy,
    /// Whether DESC is written, so that the greatest comes first.
    pub descending: bool,
}

/// A bound query.
#[derive(Drop)]
pub struct BoundSelect {
    /// One table or two.
    pub tables: TableList,
    /// The conjuncts of ON and then those of WHERE.
    pub tests: ExprList,
    /// Whether it has GROUP BY or an aggregate.
    pub grouped: bool,
    /// The columns of GROUP BY. One that is written again is left out.
    pub group: ColumnNoList,
    /// 1 to [`geo_base::limits::MAX_LINE_CELLS`] items, from left to right; `*` is one for each column.
    pub items: ItemList,
    /// What ORDER BY names, from left to right, and nothing where it is missing.
    pub order: SortList,
    /// How many lines LIMIT keeps at most; `None` where it is missing.
    pub limit: Option<u64>,
}

/// The values of a row, in the order of the columns that the INSERT names.
#[derive(Drop)]
pub struct ExprRow {
    pub values: ExprList,
}

/// A bound INSERT.
#[derive(Drop)]
pub struct BoundInsert {
    pub table: TableNo,
    /// The columns that have a value, in the order in which they are written, and all where none is.
    pub columns: PlaceList,
    pub rows: ExprRowList,
}

/// A column and its new value.
#[derive(Drop)]
pub struct SetTo {
    pub column: u8,
    pub value: Expr,
}

/// A bound UPDATE.
#[derive(Drop)]
pub struct BoundUpdate {
    pub table: TableNo,
    pub sets: SetToList,
    /// The conjuncts of WHERE.
    pub tests: ExprList,
}

/// A bound DELETE.
#[derive(Drop)]
pub struct BoundDelete {
    pub table: TableNo,
    /// The conjuncts of WHERE.
    pub tests: ExprList,
}

/// A bound statement.
#[derive(Drop)]
pub enum Bound {
    Select(BoundSelect),
    /// A query with FOR UPDATE behind it.
    Lock(BoundSelect),
    Insert(BoundInsert),
    Update(BoundUpdate),
    Delete(BoundDelete),
    /// A query whose plan is asked for, and not its rows.
    Explain(BoundSelect),
}
