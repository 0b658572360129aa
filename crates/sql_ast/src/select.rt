//! Queries.
ghost use Rattle.std.specs.Prelude.{◌≡◌, IfOk};

use crate::ast::{Ast, ColRef, copy_filter, copy_name};
use crate::lists::{AstItemList, ColRefList, OrderRefList};
use geo_base::{Duplicate, NoMemory, Txt};
use std::alloc::Global;

/// A query.
#[derive(Drop)]
pub struct SelectStmt {
    pub items: Items,
    pub left: TableRef,
    pub right: Option<JoinRef>,
    pub filter: Option<Ast>,
    /// Empty where no GROUP BY is written.
    pub group: ColRefList,
    /// Empty where no ORDER BY is written.
    pub order: OrderRefList,
    pub limit: Option<u64>,
}

/// What a query answers of each row or group.
#[derive(Drop)]
pub enum Items {
    All,
    List(AstItemList),
}

/// An item of a query, with the name that AS gives it.
#[derive(Drop)]
pub struct AstItem {
    pub value: AstValue,
    pub alias: Option<Txt>,
}

/// An expression, or an aggregate of one. `CountAll` is `COUNT(*)`.
#[derive(Drop)]
pub enum AstValue {
    Plain(Ast),
    CountAll,
    Count(Ast),
    Sum(Ast),
    Min(Ast),
    Max(Ast),
}

/// A table, with the name that AS gives it.
#[derive(Debug, Drop)]
pub struct TableRef {
    pub name: Txt,
    pub alias: Option<Txt>,
}

/// A table that is joined, and the condition of ON.
#[derive(Drop)]
pub struct JoinRef {
    pub table: TableRef,
    pub on: Ast,
}

/// A column to sort by.
#[derive(Debug, Drop)]
pub struct OrderRef {
    pub column: ColRef,
    pub descending: bool,
}

impl Duplicate for AstValue {
    fn copy(&self, alloc: Global) -> Result<AstValue, NoMemory> {
        match self {
            AstValue::Plain(value) => Ok(AstValue::Plain(value.copy(alloc)?)),
            AstValue::CountAll => Ok(AstValue::CountAll),
            AstValue::Count(value) => Ok(AstValue::Count(value.copy(alloc)?)),
            AstValue::Sum(value) => Ok(AstValue::Sum(value.copy(alloc)?)),
            AstValue::Min(value) => Ok(AstValue::Min(value.copy(alloc)?)),
            AstValue::Max(value) => Ok(AstValue::Max(value.copy(alloc)?)),
        }
    }
}

impl Duplicate for AstItem {
    fn copy(&self, alloc: Global) -> Result<AstItem, NoMemory> {
        let alias = copy_name(alloc, &self.alias)?;
        Ok(AstItem {
            value: self.value.copy(alloc)?,
            alias,
        })
    }
}

impl Duplicate for Items {
    fn copy(&self, alloc: Global) -> Result<Items, NoMemory> {
        match self {
            Items::All => Ok(Items::All),
            Items::List(items) => Ok(Items::List(items.copy(alloc)?)),
        }
    }
}

impl Duplicate for TableRef {
    fn copy(&self, alloc: Global) -> Result<TableRef, NoMemory> {
        Ok(TableRef {
            name: self.name.copy(alloc)?,
            alias: copy_name(alloc, &self.alias)?,
        })
    }
}

impl Duplicate for JoinRef {
    fn copy(&self, alloc: Global) -> Result<JoinRef, NoMemory> {
        Ok(JoinRef {
            table: self.table.copy(alloc)?,
            on: self.on.copy(alloc)?,
        })
    }
}

impl Duplicate for OrderRef {
    fn copy(&self, alloc: Global) -> Result<OrderRef, NoMemory> {
        Ok(OrderRef {
            column: self.column.copy(alloc)?,
            descending: self.descending,
        })
    }
}

// A copy of what JOIN and ON say, if they stand.
fn copy_join(alloc: Global, join: &Option<JoinRef>) -> Result<Option<JoinRef>, NoMemory>
    ensures { IfOk result (λ c. c ≡ join.now) }
{
    match join {
        None => Ok(None),
        Some(join) => Ok(Some(join.copy(alloc)?)),
    }
}

impl Duplicate for SelectStmt {
    fn copy(&self, alloc: Global) -> Result<SelectStmt, NoMemory> {
        // The parts with the most to drop come last, so that few exits drop them.
        let group = self.group.copy(alloc)?;
        let order = self.order.copy(alloc)?;
        let items = self.items.copy(alloc)?;
        let left = self.left.copy(alloc)?;
        let filter = copy_filter(alloc, &self.filter)?;
        let right = copy_join(alloc, &self.right)?;
        Ok(SelectStmt {
            items,
            left,
            right,
            filter,
            group,
            order,
            limit: self.limit,
        })
    }
}
