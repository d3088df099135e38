//! What holds the items of every crate: a list, a box and a shared value, which contracts see as
//! what they hold; and copies of them.
#![tactic(auto)]

mod boxed;
mod items;
mod shared;
mod twin;

pub use boxed::Boxed;
pub use items::Items;
pub use shared::Shared;
pub use twin::Twin;
