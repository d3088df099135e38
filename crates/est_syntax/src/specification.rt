//! Specifications (ISO 9074, specification).

use crate::body::Parts;
use crate::header::Queue;
use crate::name::Used;
use crate::statement::Statement;

/// A specification (ISO 9074, specification): its default queues and its time scale, where it has
/// such. `first` is the one statement of its initialize part.
#[derive(Drop)]
pub struct Spec {
    pub name: Used,
    pub queue: Option<Queue>,
    pub scale: Option<Used>,
    pub parts: Parts,
    pub first: Statement,
}
