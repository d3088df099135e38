//! Interaction points whose queue is not said.

use crate::warning::{Slip, Warning};
use est_syntax::body::Part;
use est_syntax::header::Point;
use std::alloc::AllocError;

// The place of the first name of a declaration.
fn first_place(point: &Point) -> u32 {
    match point.names.get(0) {
        None => point.place,
        Some(name) => name.place,
    }
}

// Adds the interaction points without a queue discipline.
fn push_points(points: &[Point], found: &mut Vec<Warning>) -> Result<(), AllocError> {
    for point in points {
        if point.queue.is_none() {
            found.push(Warning {
                place: first_place(point),
                slip: Slip::NoQueue,
            })?;
        }
    }
    Ok(())
}

/// Adds the interaction points without a queue discipline that a part declares.
pub(crate) fn push_unqueued(part: &Part, found: &mut Vec<Warning>) -> Result<(), AllocError> {
    match part {
        Part::Points(points) => push_points(points.as_slice(), found),
        Part::Header(header) => push_points(header.points.as_slice(), found),
        _ => Ok(()),
    }
}
