//! A system as the program holds it, and what a block works on.

use est_syntax::est_items::{Items, Shared, Twin};
use est_values::Queue;
use mean_blocks::frame::Frame;
use mean_blocks::situation::{InteractionPoint, Item, Row};
use std::alloc::{AllocError, Global};

/// Rows, of which the first with a number counts.
pub type Rows = Items<Shared<Row>>;

/// A link from one interaction point to another.
#[derive(Drop)]
pub struct Link {
    pub from: InteractionPoint,
    pub to: InteractionPoint,
}

/// Links, of which the first from an interaction point counts.
pub type Links = Items<Link>;

/// Whose queue it is: that of one interaction point, or the common one of an instance.
#[derive(Drop)]
pub enum QueueKey {
    Own(InteractionPoint),
    Common(u32),
}

/// A queue with its items in order.
#[derive(Drop)]
pub struct Waiting {
    pub queue: QueueKey,
    pub items: Queue<Item>,
}

/// Queues, of which the first with a key counts. One that is not there is empty.
pub type Queues = Items<Waiting>;

/// Since when a delay transition of an instance is enabled. Transitions are numbered from 1 in the
/// body.
#[derive(Drop)]
pub struct Stamp {
    pub instance: u32,
    pub transition: u32,
    pub since: u64,
}

/// Stamps, of which the first of a transition counts.
pub type Stamps = Items<Stamp>;

/// The system. A copy shares what it holds.
#[derive(Drop)]
pub struct System {
    pub rows: Shared<Rows>,
    /// Both directions of each connection.
    pub peers: Shared<Links>,
    /// From interaction points to those of children that are attached to them.
    pub downs: Shared<Links>,
    pub queues: Shared<Queues>,
    pub stamps: Shared<Stamps>,
    pub clock: u64,
    /// The number of the next instance.
    pub next: u32,
}

/// Items in order.
pub type Outs = Items<Item>;

/// Frames from the outermost on.
pub type Frames = Items<Frame>;

/// What a block works on, but for the count of its statements.
#[derive(Drop)]
pub struct Working {
    pub system: System,
    /// What was sent out of the system.
    pub outs: Outs,
    pub frames: Frames,
}

impl Twin for Link {
    fn twin(&self, alloc: Global) -> Result<Link, AllocError> {
        let from = self.from.twin(alloc)?;
        let to = self.to.twin(alloc)?;
        Ok(Link { from, to })
    }
}

impl Twin for QueueKey {
    fn twin(&self, alloc: Global) -> Result<QueueKey, AllocError> {
        match self {
            QueueKey::Own(point) => {
                let point = point.twin(alloc)?;
                Ok(QueueKey::Own(point))
            }
            QueueKey::Common(instance) => Ok(QueueKey::Common(*instance)),
        }
    }
}

impl Twin for Waiting {
    fn twin(&self, alloc: Global) -> Result<Waiting, AllocError> {
        let queue = self.queue.twin(alloc)?;
        let items = self.items.twin(alloc)?;
        Ok(Waiting { queue, items })
    }
}

impl Twin for Stamp {
    fn twin(&self, alloc: Global) -> Result<Stamp, AllocError> {
        Ok(Stamp {
            instance: self.instance,
            transition: self.transition,
            since: self.since,
        })
    }
}

impl Twin for System {
    fn twin(&self, alloc: Global) -> Result<System, AllocError> {
        let rows = self.rows.share()?;
        let peers = self.peers.share()?;
        let downs = self.downs.share()?;
        let queues = self.queues.share()?;
        let stamps = self.stamps.share()?;
        Ok(System {
            rows,
            peers,
            downs,
            queues,
            stamps,
            clock: self.clock,
            next: self.next,
        })
    }
}

impl Twin for Working {
    fn twin(&self, alloc: Global) -> Result<Working, AllocError> {
        let system = self.system.twin(alloc)?;
        let outs = self.outs.twin(alloc)?;
        let frames = self.frames.twin(alloc)?;
        Ok(Working {
            system,
            outs,
            frames,
        })
    }
}
