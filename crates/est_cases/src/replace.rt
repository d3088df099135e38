//! One part of a text in place of another.

use crate::mistake::Mistake;
use std::alloc::Global;

/// The text with `new` in place of `old`, which has to stand there once.
pub fn replaced(alloc: Global, text: &[u8], old: &[u8], new: &[u8]) -> Result<Vec<u8>, Mistake> {
    let Some((before, after)) = split_around(text, old) else {
        return Err(Mistake::NotThereOnce);
    };
    if split_around(after, old).is_some() {
        return Err(Mistake::NotThereOnce);
    }
    let mut all = Vec::from_slice(alloc, before)?;
    all.extend_from_slice(new)?;
    all.extend_from_slice(after)?;
    Ok(all)
}

// What stands before and after the first place of a part.
fn split_around<'t>(text: &'t [u8], part: &[u8]) -> Option<(&'t [u8], &'t [u8])> {
    for place in 0..text.len() {
        let (before, from) = text.split_at(place);
        if let Some(after) = from.strip_prefix(part) {
            return Some((before, after));
        }
    }
    None
}
