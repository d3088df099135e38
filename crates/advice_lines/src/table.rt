//! Tables of text.

use crate::cells::{COLUMNS, TITLES, push_cells};
use crate::sheet::Sheet;
use std::alloc::{AllocError, Global};

/// Adds the table of the moves to a text: a line with titles, and one for each move. Cells are
/// filled with blanks, and two blanks stand between them.
pub fn append_table(alloc: Global, text: &mut String, sheet: &Sheet) -> Result<(), AllocError> {
    let cells = cells_of(alloc, sheet)?;
    append_cells(text, &cells)
}

// The cells of the table, row by row.
fn cells_of(alloc: Global, sheet: &Sheet) -> Result<Vec<String>, AllocError> {
    let mut cells = Vec::new(alloc);
    push_titles(alloc, &mut cells)?;
    for (number, shown) in sheet.moves.iter().enumerate() {
        push_cells(alloc, number, shown, &mut cells)?;
    }
    Ok(cells)
}

// Adds the cells of the titles.
fn push_titles(alloc: Global, cells: &mut Vec<String>) -> Result<(), AllocError> {
    for title in &TITLES {
        cells.push(String::from_str(alloc, title)?)?;
    }
    Ok(())
}

// The number of bytes of the longest cell of each column.
fn widths_of(cells: &[String]) -> [usize; COLUMNS] {
    let mut widths = [0; COLUMNS];
    for (at, cell) in cells.iter().enumerate() {
        let column = at % COLUMNS;
        widths[column] = widths[column].max(cell.len());
    }
    widths
}

// Adds cells, of which each row is a line.
fn append_cells(text: &mut String, cells: &[String]) -> Result<(), AllocError> {
    let widths = widths_of(cells);
    for (at, cell) in cells.iter().enumerate() {
        let column = at % COLUMNS;
        append_cell(text, cell, column, widths[column])?;
    }
    Ok(())
}

// Adds a cell of a column of this width. After the last one of a row the line ends.
fn append_cell(
    text: &mut String,
    cell: &str,
    column: usize,
    width: usize,
) -> Result<(), AllocError> {
    text.push_str(cell)?;
    if column == COLUMNS - 1 {
        return text.push_str("\n");
    }
    append_blanks(text, width.saturating_sub(cell.len()))?;
    text.push_str("  ")
}

// Adds so many blanks.
fn append_blanks(text: &mut String, count: usize) -> Result<(), AllocError> {
    for _ in 0..count {
        text.push_str(" ")?;
    }
    Ok(())
}
