//! What is laid out for people: tables of text and charts of moves, and the lines of notes on a
//! specification, with what they say of names and types.
#![tactic(auto)]

pub mod alike_names;
mod cells;
pub mod chart;
mod columns;
pub mod declared;
mod drawing;
pub mod kinds;
pub mod lines;
pub mod near;
pub mod sheet;
pub mod similar;
pub mod slots;
pub mod sorts;
pub mod started;
pub mod table;
