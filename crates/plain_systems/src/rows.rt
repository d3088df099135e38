//! Rows of instances, and how they are found.
ghost use Rattle.std.specs.Prelude.{◌≡◌, option_copied, find};
ghost use Rattle.std.specs.List.{position};
ghost use Rattle.mean_blocks.specs.GlobalSituation.{is_numbered, row_of, lives};
ghost use Rattle.plain_systems.specs.HeldSystems.{situation_of};

use crate::system::{Rows, System};
use est_syntax::est_items::Shared;
use mean_blocks::situation::Row;

/// Where the row of an instance stands.
pub fn row_position(number: u32, rows: &Shared<Rows>) -> Option<usize>
    ensures { result ≡ position (is_numbered number) rows.now }
{
    rows.get()
        .as_slice()
        .iter()
        .position(|row| number == row.get().number)
}

// The first row of a number.
fn first_row(number: u32, rows: &[Shared<Row>]) -> Option<&Shared<Row>>
    ensures { option_copied result ≡ find (is_numbered number) rows.now }
{
    rows.iter().find(|row| number == row.get().number)
}

/// The row of a living instance.
pub fn row_of(system: &System, number: u32) -> Option<&Row>
    ensures { option_copied result ≡ row_of (situation_of system.now) number }
{
    match first_row(number, system.rows.get().as_slice()) {
        None => None,
        Some(row) => Some(row.get()),
    }
}

/// Whether an instance lives.
pub fn lives(system: &System, number: u32) -> bool
    ensures { result ≡ lives (situation_of system.now) number }
{
    row_of(system, number).is_some()
}
