//! A source of rows that counts, while the program runs, how many it hands out.
use geo_base::{NoMemory, RowId, RowImage, TableNo};
use geo_schema::KeyRange;
use row_source::{ListSource, RowSource, Steps};
use std::alloc::Global;
use std::cell::Cell;
use std::sync::ledger::Ledger;

/// A list of rows, and how many it has handed out since the count was last taken.
#[derive(Drop)]
pub struct Counted<'a> {
    pub list: ListSource<'a>,
    pub count: Cell<usize>,
}

impl<'a> Counted<'a> {
    /// How many rows were handed out since this was last asked.
    pub fn take_count(&self) -> usize {
        self.count.replace(0)
    }

    fn rise(&self, rows: usize) {
        self.count.set(self.count.get().saturating_add(rows));
    }

    fn rise_by(&self, found: &Result<Vec<&RowImage>, NoMemory>) {
        if let Ok(rows) = found {
            self.rise(rows.len());
        }
    }
}

impl<'s> RowSource for Counted<'s> {
    ghost tables = { λ s. s.list.tables };

    ghost rows = { λ s. s.list.rows };

    ghost base = { λ s. s.list.base };

    fn get<'a, L: Ledger>(&'a self, row: &RowId, steps: &mut Steps<L>) -> Option<&'a RowImage> {
        let found = self.list.get(row, steps);
        self.rise(usize::from(found.is_some()));
        found
    }

    fn base_has(&self, row: &RowId) -> bool {
        self.list.base_has(row)
    }

    fn key_range<'a, L: Ledger>(
        &'a self,
        alloc: Global,
        table: TableNo,
        range: &KeyRange,
        steps: &mut Steps<L>,
    ) -> Result<Vec<&'a RowImage>, NoMemory> {
        let found = self.list.key_range(alloc, table, range, steps);
        self.rise_by(&found);
        found
    }

    fn index_range<'a, L: Ledger>(
        &'a self,
        alloc: Global,
        table: TableNo,
        index: u8,
        range: &KeyRange,
        steps: &mut Steps<L>,
    ) -> Result<Vec<&'a RowImage>, NoMemory> {
        let found = self.list.index_range(alloc, table, index, range, steps);
        self.rise_by(&found);
        found
    }
}
