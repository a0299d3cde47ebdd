use std::marker::Model;
use vm_chain::{ChainFault, Desc};
use vm_frame::Held;
use vm_mem::Page;

/// What the driver posts on a queue: a chain of descriptors, the pages that its bytes lie in, and
/// the memories of buffers that move with it.
///
/// Source: VIRTIO 1.3, 2.7 "Split Virtqueues"; that pages and memories move with the chain is own.
#[derive(Drop)]
pub struct Parcel {
    /// Who posted it: the process, or the number of the event's chain.
    pub who: u16,
    /// The descriptors, of which the first is the chain's head. `next` counts from the table's
    /// start.
    pub table: Vec<Desc>,
    /// The pages.
    pub pages: Vec<Page>,
    /// The memories, in a vector whose room stays with the parcel.
    pub held: Vec<Held>,
}

impl Model for Parcel {
    ghost use Rattle.std.specs.Prelude.{vec_capacity};
    ghost use Rattle.vm_link.specs.Parcel.{ParcelState};

    ghost Value = { ParcelState };

    ghost view = { λ p. record {
      who = p.who;
      table = p.table.items;
      pages = p.pages.items;
      held = p.held.items;
      room = vec_capacity p.held;
    } };
}

/// A parcel that the device took, and what the walk of its table found.
///
/// Source: own.
#[derive(Drop)]
pub struct Taken {
    /// The number that names the chain until it is collected.
    pub head: u16,
    /// The first fault of the walk, if there is one.
    pub fault: Option<ChainFault>,
    pub parcel: Parcel,
}

/// A parcel on its way back.
///
/// Source: VIRTIO 1.3, 2.7.8 "The Virtqueue Used Ring".
#[derive(Drop)]
pub struct Finished {
    /// The number under which the device took it.
    pub head: u16,
    /// How many bytes the device wrote.
    pub used: u32,
    pub parcel: Parcel,
}
