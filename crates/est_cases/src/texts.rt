//! Texts that cases share, by name.

use crate::mistake::Mistake;
use std::alloc::{AllocError, Global};

// A text with its name.
#[derive(Drop)]
struct SharedText {
    name: String,
    bytes: Vec<u8>,
}

/// The texts that are named so far.
#[derive(Drop)]
pub struct Texts {
    list: Vec<SharedText>,
}

impl Texts {
    /// No text yet.
    pub fn new(alloc: Global) -> Texts {
        Texts {
            list: Vec::new(alloc),
        }
    }

    /// Adds a text.
    pub fn add(&mut self, alloc: Global, name: &str, bytes: &[u8]) -> Result<(), AllocError> {
        let text = SharedText {
            name: String::from_str(alloc, name)?,
            bytes: Vec::from_slice(alloc, bytes)?,
        };
        self.list.push(text)?;
        Ok(())
    }

    /// Adds a line to the last text.
    pub fn add_line(&mut self, line: &str) -> Result<(), Mistake> {
        match self.list.last_mut() {
            Some(text) => {
                text.bytes.extend_from_slice(line.as_bytes())?;
                text.bytes.push(b'\n')?;
                Ok(())
            }
            None => Err(Mistake::NoTextBegun),
        }
    }

    /// The text of this name.
    pub fn find(&self, name: &[u8]) -> Option<&[u8]> {
        for text in self.list.iter() {
            if text.name.as_bytes() == name {
                return Some(text.bytes.as_slice());
            }
        }
        None
    }
}
