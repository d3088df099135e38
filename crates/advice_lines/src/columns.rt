//! Which column of a chart an instance has.

use crate::sheet::Life;
use std::alloc::{AllocError, Global};

// How far columns are apart, and where the first one is, that of the outside.
const APART: u64 = 200;

const FIRST: u64 = 130;

/// The columns of instances, from 1, in the order of their numbers, and how many there are.
#[derive(Drop)]
pub(crate) struct Columns<'s> {
    lives: &'s [Life],
    taken: Vec<usize>,
    count: usize,
}

// The first column that is free before the move of a number, where it is known of each in which
// move it becomes free; or else the next one.
fn free_column(until: &[Option<usize>], begin: usize) -> usize {
    for (at, end) in until.iter().enumerate() {
        if end.is_some_and(|end| end < begin) {
            return at;
        }
    }
    until.len()
}

// Has an instance take a column until its end.
fn take(
    until: &mut Vec<Option<usize>>,
    column: usize,
    end: Option<usize>,
) -> Result<(), AllocError> {
    match until.get_mut(column) {
        Some(last) => *last = end,
        None => until.push(end)?,
    }
    Ok(())
}

// Has instances take columns, and answers how many these are.
fn take_all(alloc: Global, lives: &[Life], taken: &mut Vec<usize>) -> Result<usize, AllocError> {
    let mut until = Vec::new(alloc);
    for life in lives {
        let column = free_column(&until, life.begin);
        take(&mut until, column, life.end)?;
        taken.push(column.saturating_add(1))?;
    }
    Ok(until.len())
}

impl<'s> Columns<'s> {
    /// The columns of these instances. One whose instance was released in an earlier move is taken
    /// again.
    pub fn new(alloc: Global, lives: &'s [Life]) -> Result<Columns<'s>, AllocError> {
        let mut taken = Vec::new(alloc);
        let count = take_all(alloc, lives, &mut taken)?;
        Ok(Columns {
            lives,
            taken,
            count,
        })
    }

    // The column of an instance, and that of the outside for 0.
    fn column_of(&self, instance: u32) -> usize {
        if instance == 0 {
            return 0;
        }
        let at = self.lives.partition_point(|life| life.instance < instance);
        self.taken.get(at).copied().unwrap_or(0)
    }

    /// Where the column of an instance is, and that of the outside for 0.
    pub fn x_of(&self, instance: u32) -> u64 {
        let column = self.column_of(instance) as u64;
        column.saturating_mul(APART).saturating_add(FIRST)
    }

    /// How wide a chart of these columns is.
    pub fn width(&self) -> u64 {
        let last = (self.count as u64).saturating_add(1);
        last.saturating_mul(APART).saturating_add(FIRST)
    }
}
