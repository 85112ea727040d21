// Chains of places, one for each tray and one of the free places.
ghost use Rattle.std.specs.Prelude.{◌≡◌, ℕ, ◌+◌, ◌<◌, ◌≤◌, length, replicate, slice_index, slice_set};
ghost use Rattle.chains.specs.Chains.{Apart, Ends, Free, Grown, Has, Inside, counted, every_place, link_at, no_link, place, popped, pushed, with_free, without};

use crate::link::Link;
use banks::serving::{MAX_CELLS, MAX_TRAYS};

// Each place is followed by the next.
fn successors() -> [u16; MAX_CELLS]
    ensures length { length result ≡ 1024 }
    ensures each { (k : ℕ) → k < 1024 → slice_index result k ≡ k + 1 }
{
    std::array::from_fn(|place| place as u16 + 1)
}

// The chain of each tray, that of the free places, and for each of the `size` places the next one in its chain. The ghost
// fields say what holds of every such value: each entry of a chain lies at a place of its own below `size`, and each chain
// knows its last. The chains are arrays beside the lent table, since a bank uses no heap, and no vectors of fixed
// capacity: how many places there are never changes once the bank is made, so nothing is ever pushed.
#[derive(Clone, Copy, Debug, PartialEq, Eq)]
pub struct Links {
    heads: [Link; MAX_TRAYS],
    free: Link,
    next: [u16; MAX_CELLS],
    size: usize,
    ghost whole: { length heads ≡ 128 },
    ghost long: { length next ≡ 1024 },
    ghost small: { size ≤ 1024 },
    ghost counts: { counted (with_free heads free) ≤ size },
    ghost inside: { Inside (with_free heads free) next size },
    ghost apart: { Apart (with_free heads free) next },
    ghost ends: { Ends (with_free heads free) next },
}

impl Links {
    // Every place is free. A size is asked to be small here and in the rows, each for numbers of 16 bits of its own.
    pub(crate) fn new(size: usize) -> Links
        requires { size ≤ 1024 }
        ensures size { result.size ≡ size }
        ensures heads { result.heads ≡ replicate 128 no_link }
        ensures free { result.free ≡ every_place size }
    {
        Links {
            heads: [Link::default(); MAX_TRAYS],
            free: Link {
                first: 0,
                last: size.saturating_sub(1) as u16,
                count: size as u16,
            },
            next: successors(),
            size,
        }
    }

    // How many places a tray's chain has: none where there is no such tray.
    pub(crate) fn count(&self, tray: usize) -> usize
        ensures { result ≡ (link_at self.now.heads tray).count }
    {
        self.heads
            .get(tray)
            .map_or(0, |head| usize::from(head.count))
    }

    pub(crate) fn free_count(&self) -> usize
        ensures { result ≡ self.now.free.count }
    {
        usize::from(self.free.count)
    }

    pub(crate) fn size(&self) -> usize
        ensures { result ≡ self.now.size }
    {
        self.size
    }

    // Moves the place that has been free longest to the end of a tray's chain. What is said in all chains is said of the
    // free one too, which is chain 128 there.
    pub(crate) fn fill(&mut self, tray: usize) -> usize
        requires is_tray { tray < 128 }
        requires has_free { 0 < self.old.free.count }
        ensures first { result ≡ self.old.free.first }
        ensures inside { result < self.old.size }
        ensures free { Free self.old.heads self.old.next result }
        ensures grown { Grown self.old.heads self.old.next self.new.heads self.new.next tray result }
        ensures heads { self.new.heads ≡ slice_set self.old.heads tray (pushed result (link_at self.old.heads tray)) }
        ensures fewer_free { self.new.free.count + 1 ≡ self.old.free.count }
        ensures size { self.new.size ≡ self.old.size }
        ensures free_left { self.new.free ≡ popped self.old.next self.old.free }
        ensures free_in_all { Free (with_free self.old.heads self.new.free) self.old.next result }
        ensures grown_in_all { Grown (with_free self.old.heads self.new.free) self.old.next (with_free self.new.heads self.new.free) self.new.next tray result }
    {
        let place = self.free.pop(&self.next);
        self.heads[tray].push(&mut self.next, place);
        usize::from(place)
    }

    // Moves the first place of a tray's chain to the end of the free ones, which are chain 128 where all chains are seen.
    pub(crate) fn release(&mut self, tray: usize) -> usize
        requires is_tray { tray < 128 }
        requires has_place { 0 < (link_at self.old.heads tray).count }
        ensures first { result ≡ (link_at self.old.heads tray).first }
        ensures inside { result < self.old.size }
        ensures heads { self.new.heads ≡ without self.old.heads self.old.next tray }
        ensures kept { (k i : ℕ) → Has self.new.heads k i → place self.new.heads self.new.next k i ≡ place self.new.heads self.old.next k i }
        ensures more_free { self.new.free.count ≡ self.old.free.count + 1 }
        ensures size { self.new.size ≡ self.old.size }
        ensures free_end { self.new.free ≡ pushed result self.old.free }
        ensures free_in_all { Free (with_free self.new.heads self.old.free) self.old.next result }
        ensures grown_in_all { Grown (with_free self.new.heads self.old.free) self.old.next (with_free self.new.heads self.new.free) self.new.next 128 result }
    {
        let next = &self.next;
        let place = self.heads[tray].pop(next);
        self.free.push(&mut self.next, place);
        usize::from(place)
    }
}
