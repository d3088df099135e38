//! A table of cases.

use crate::cells::{Cells, Column};
use crate::mistake::Mistake;
use std::alloc::Global;

/// What is given for all cases that follow, and the columns of their rows.
#[derive(Drop)]
pub struct Table<'t> {
    given: Cells<'t>,
    columns: Vec<Column>,
}

impl<'t> Table<'t> {
    /// Nothing is given, and there are no columns.
    pub fn new(alloc: Global) -> Table<'t> {
        Table {
            given: Cells::new(),
            columns: Vec::new(alloc),
        }
    }

    /// Forgets what was given, and the columns.
    pub fn clear(&mut self) {
        self.given = Cells::new();
        self.columns.clear();
    }

    /// Gives a cell to all cases that follow, by a line `COLUMN = CELL`.
    pub fn give(&mut self, line: &'t str) -> Result<(), Mistake> {
        let Some((name, cell)) = line.split_once('=') else {
            return Err(Mistake::NoEquals);
        };
        let column = Column::named(name.trim()).ok_or(Mistake::NoSuchColumn)?;
        self.given.set(column, cell.trim());
        Ok(())
    }

    /// Reads the names of the columns after that of the case.
    pub fn set_columns(&mut self, line: &str) -> Result<(), Mistake> {
        self.columns.clear();
        for name in line.split('|') {
            let column = Column::named(name.trim()).ok_or(Mistake::NoSuchColumn)?;
            self.columns.push(column)?;
        }
        Ok(())
    }

    /// The cells of a row: the name of the case, and then a cell for each column.
    pub fn row(&self, line: &'t str) -> Result<Cells<'t>, Mistake> {
        let mut cells = self.given;
        let mut parts = line.split('|');
        cells.name = parts.next().unwrap_or("").trim();
        for column in self.columns.iter() {
            match parts.next() {
                Some(cell) => cells.set(*column, cell.trim()),
                None => return Err(Mistake::TooFewCells),
            }
        }
        match parts.next() {
            Some(_) => Err(Mistake::TooManyCells),
            None => Ok(cells),
        }
    }
}
