//! How a shelf or a sink in memory behaves.

use crate::mistake::Mistake;

// Calls count from 1, so that none has this number.
const NO_CALL: u64 = 0;

/// How many bytes a call takes at most, the number of the call that fails, and how many bytes there
/// is room for.
#[derive(Clone, Copy)]
pub struct Plan {
    pub pieces: usize,
    pub fails: u64,
    pub room: usize,
}

impl Plan {
    /// Reads a plan, as `pieces 8, fails 2`. What it leaves out is as usual.
    pub fn read(cell: Option<&str>) -> Result<Plan, Mistake> {
        let mut plan = Plan {
            pieces: 4096,
            fails: NO_CALL,
            room: 4096,
        };
        if let Some(cell) = cell {
            for part in cell.split(',') {
                plan.set(part.trim())?;
            }
        }
        Ok(plan)
    }

    // Takes one part of a plan, a word and a number.
    fn set(&mut self, part: &str) -> Result<(), Mistake> {
        let Some((word, number)) = part.split_once(' ') else {
            return Err(Mistake::BadPlan);
        };
        match (word, number.parse::<u32>()) {
            ("pieces", Ok(number)) => self.pieces = number as usize,
            ("fails", Ok(number)) => self.fails = number as u64,
            ("room", Ok(number)) => self.room = number as usize,
            _ => return Err(Mistake::BadPlan),
        }
        Ok(())
    }
}
