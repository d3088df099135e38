//! A list in chunks.
ghost use Rattle.std.specs.Prelude.{◌≡◌, ◌<◌, ◌≤◌, [], ◌∷◌, ◌++◌, length, slice_get, slice_set};
ghost use Rattle.std.specs.Prelude.{IfOk, OnOk, OnErr, option_copied, drop, Some};

use est_syntax::est_items::{Items, Shared, Twin};
use std::alloc::{AllocError, Global};
use std::marker::Model;
use std::mem;

// So many items make a full chunk.
const WIDTH: usize = 128;

// So many items at most are copied to let go of those before them.
const FEW: usize = 32;

/// A list in chunks, which several lists can share: a copy costs two counts, and a write copies at
/// most one chunk and the list of those that are full. The last chunk may be of any length. A type
/// may hold itself through it.
#[derive(Drop)]
pub struct Chunks<T> {
    count: usize,
    full: Shared<Items<Shared<Items<T>>>>,
    last: Shared<Items<T>>,
}

impl<T> Model for Chunks<T> {
    ghost use Rattle.std.specs.Prelude.{List};
    ghost use Rattle.std.specs.Coded.{coded_list};
    ghost use Rattle.est_values.specs.Laid.{laid, IsCounted};

    ghost Value = { List T };

    ghost coded = { coded_list T.code };

    ghost view = { λ chunks. laid chunks.full chunks.last };

    ghost invariant = { λ chunks. IsCounted chunks.count chunks.full chunks.last };
}

// The chunks after so many, shared.
fn chunks_from<T: Drop>(
    full: &Items<Shared<Items<T>>>,
    alloc: Global,
    count: usize,
) -> Result<Shared<Items<Shared<Items<T>>>>, AllocError>
    requires { count ≤ length full.now }
    ensures { IfOk result (λ rest. rest ≡ drop count full.now) }
{
    let chunks = &full.as_slice()[count..];
    let mut items = Vec::with_capacity(alloc, chunks.len())?;
    for chunk in chunks {
        items.push(chunk.share()?)?;
    }
    Shared::new(alloc, Items { items })
}

// The items of a chunk after so many, copied into one of their own.
fn chunk_from<T: Twin + Drop>(
    chunk: &Items<T>,
    alloc: Global,
    count: usize,
) -> Result<Shared<Items<T>>, AllocError>
    requires { count ≤ length chunk.now }
    ensures { IfOk result (λ rest. rest ≡ drop count chunk.now) }
{
    let rest = &chunk.as_slice()[count..];
    let mut items = Vec::with_capacity(alloc, rest.len())?;
    for item in rest {
        items.push(item.twin(alloc)?)?;
    }
    Shared::new(alloc, Items { items })
}

// A chunk of one item.
fn alone<T: Drop>(alloc: Global, item: T) -> Result<Shared<Items<T>>, AllocError>
    ensures { IfOk result (λ chunk. chunk ≡ item ∷ []) }
{
    let mut items = Items::new(alloc);
    items.push(item)?;
    Shared::new(alloc, items)
}

// No full chunks: these, where there are none of them.
fn no_full_chunks<T: Drop>(
    full: &Shared<Items<Shared<Items<T>>>>,
    alloc: Global,
) -> Result<Shared<Items<Shared<Items<T>>>>, AllocError>
    ensures { IfOk result (λ none. none ≡ []) }
{
    if full.get().len() == 0 {
        return full.share();
    }
    Shared::new(alloc, Items::new(alloc))
}

// No items, with room for so many: these, where there are none of them and no room is wanted.
fn no_items<T: Drop>(
    last: &Shared<Items<T>>,
    alloc: Global,
    room: usize,
) -> Result<Shared<Items<T>>, AllocError>
    ensures { IfOk result (λ none. none ≡ []) }
{
    if room == 0 && last.get().len() == 0 {
        return last.share();
    }
    let items = Vec::with_capacity(alloc, room.min(WIDTH))?;
    Shared::new(alloc, Items { items })
}

// Puts a chunk last, shared.
fn join<T: Drop>(
    full: &mut Items<Shared<Items<T>>>,
    chunk: &Shared<Items<T>>,
) -> Result<(), AllocError>
    ensures ok { OnOk result (full.new ≡ full.old ++ chunk.now ∷ []) }
    ensures err { OnErr result (full.new ≡ full.old) }
{
    full.push(chunk.share()?)?;
    Ok(())
}

// Puts an item in the place of another, which it answers, in a chunk.
fn exchange_in<T: Twin + Drop>(
    chunk: &mut Shared<Items<T>>,
    alloc: Global,
    at: usize,
    item: T,
) -> Result<T, AllocError>
    requires { at < length chunk.old }
    ensures old { IfOk result (λ old. slice_get chunk.old at ≡ Some old) }
    ensures ok { OnOk result (chunk.new ≡ slice_set chunk.old at item) }
    ensures err { OnErr result (chunk.new ≡ chunk.old) }
    ensures length { length chunk.new ≡ length chunk.old }
{
    let items = chunk.own(alloc)?;
    Ok(mem::replace(&mut items.items[at], item))
}

impl<T> Chunks<T> {
    /// How many items there are.
    pub fn len(&self) -> usize
        ensures { result ≡ length self.now }
    {
        self.count
    }

    /// The item at a place, where there is one.
    pub fn get(&self, at: usize) -> Option<&T>
        ensures { option_copied result ≡ slice_get self.now at }
    {
        let full = self.full.get();
        match full.get(at / WIDTH) {
            Some(chunk) => chunk.get().get(at % WIDTH),
            None => self.last.get().get(at - full.len() * WIDTH),
        }
    }
}

impl<T: Drop> Chunks<T> {
    /// The same items, shared. Errs where there can be no more owners.
    pub fn share(&self) -> Result<Chunks<T>, AllocError>
        ensures { IfOk result (λ chunks. chunks ≡ self.now) }
    {
        Ok(Chunks {
            count: self.count,
            full: self.full.share()?,
            last: self.last.share()?,
        })
    }

    /// No items, with room for so many, as far as they stand in one chunk. What holds nothing is
    /// shared with these. Errs where memory runs out, or where there can be no more owners.
    pub fn emptied(&self, alloc: Global, room: usize) -> Result<Chunks<T>, AllocError>
        ensures { IfOk result (λ chunks. chunks ≡ []) }
    {
        Ok(Chunks {
            count: 0,
            full: no_full_chunks(&self.full, alloc)?,
            last: no_items(&self.last, alloc, room)?,
        })
    }
}

impl<T: Twin + Drop> Chunks<T> {
    /// No items. Errs where memory runs out.
    pub fn new(alloc: Global) -> Result<Chunks<T>, AllocError>
        ensures { IfOk result (λ chunks. chunks ≡ []) }
    {
        Ok(Chunks {
            count: 0,
            full: Shared::new(alloc, Items::new(alloc))?,
            last: Shared::new(alloc, Items::new(alloc))?,
        })
    }

    /// Puts an item last. Errs where memory runs out; the item is then dropped.
    pub fn push(&mut self, alloc: Global, item: T) -> Result<(), AllocError>
        ensures ok { OnOk result (self.new ≡ self.old ++ item ∷ []) }
        ensures err { OnErr result (self.new ≡ self.old) }
    {
        let count = self.count.checked_add(1).ok_or(AllocError)?;
        if self.last.get().len() == WIDTH {
            let fresh = alone(alloc, item)?;
            let full = self.full.own(alloc)?;
            join(full, &self.last)?;
            self.last = fresh;
            self.count = count;
            Ok(())
        } else {
            let last = self.last.own(alloc)?;
            last.push(item)?;
            self.count = count;
            Ok(())
        }
    }

    /// Lets go of the full chunks that lie before a place, where they are as many as the other full
    /// ones or more; and where no chunk is full, of the items before the place, where the others
    /// are few and no more than they. Answers how many items went. Errs where memory runs out.
    pub fn cut(&mut self, alloc: Global, before: usize) -> Result<usize, AllocError>
        ensures before { IfOk result (λ count. count ≤ before) }
        ensures there { IfOk result (λ count. count ≤ length self.old) }
        ensures ok { IfOk result (λ count. self.new ≡ drop count self.old) }
        ensures err { OnErr result (self.new ≡ self.old) }
    {
        let full = self.full.get();
        if full.len() == 0 {
            let last = self.last.get();
            if before == 0 || last.len() < before {
                return Ok(0);
            }
            let others = last.len() - before;
            if before < others || FEW < others {
                return Ok(0);
            }
            self.last = chunk_from(last, alloc, before)?;
            self.count -= before;
            return Ok(before);
        }
        let count = before / WIDTH;
        if full.len() < count || count < full.len() - count || count == 0 {
            return Ok(0);
        }
        self.full = chunks_from(full, alloc, count)?;
        self.count -= count * WIDTH;
        Ok(count * WIDTH)
    }

    /// Puts an item in the place of another, which it answers. Errs where memory runs out; the new
    /// item is then dropped.
    pub fn exchange(&mut self, alloc: Global, at: usize, item: T) -> Result<T, AllocError>
        requires { at < length self.old }
        ensures old { IfOk result (λ old. slice_get self.old at ≡ Some old) }
        ensures ok { OnOk result (self.new ≡ slice_set self.old at item) }
        ensures err { OnErr result (self.new ≡ self.old) }
    {
        let count = self.full.get().len();
        if at / WIDTH < count {
            let full = self.full.own(alloc)?;
            let old = exchange_in(&mut full.items[at / WIDTH], alloc, at % WIDTH, item)?;
            Ok(old)
        } else {
            let old = exchange_in(&mut self.last, alloc, at - count * WIDTH, item)?;
            Ok(old)
        }
    }

    /// Puts an item in the place of another. Errs where memory runs out; the item is then dropped.
    pub fn set(&mut self, alloc: Global, at: usize, item: T) -> Result<(), AllocError>
        requires { at < length self.old }
        ensures ok { OnOk result (self.new ≡ slice_set self.old at item) }
        ensures err { OnErr result (self.new ≡ self.old) }
    {
        let old = self.exchange(alloc, at, item)?;
        drop(old);
        Ok(())
    }
}

impl<T: Drop> Twin for Chunks<T> {
    fn twin(&self, alloc: Global) -> Result<Chunks<T>, AllocError> {
        self.share()
    }
}
