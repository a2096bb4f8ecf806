// Totals and the last notes.
ghost use Rattle.std.specs.Prelude.{◌≡◌, IfOk, length, slice_get};
ghost use Rattle.traffic_trace.specs.Notes.{no_notes, noted, total_of};

use crate::note::{Kind, Note};
use circular_buffer::HeapCircularBuffer;
use std::alloc::{AllocError, Global};
use std::marker::Model;

/// The traffic so far: how many notes of each kind there were, and the last notes.
#[derive(Drop)]
pub struct Traffic {
    totals: [u64; 7],
    recent: HeapCircularBuffer<Note>,
}

impl Model for Traffic {
    ghost use Rattle.traffic_trace.specs.Notes.{Trace};

    ghost Value = { Trace };

    ghost view = { λ t.
        record { totals = t.totals; notes = t.recent.items; kept = t.recent.capacity } };
}

impl Traffic {
    /// No traffic yet. At most `last` notes are kept, and all memory for them is taken here.
    pub fn new(alloc: Global, last: u32) -> Result<Traffic, AllocError>
        ensures { IfOk result (λ traffic. traffic ≡ no_notes last) }
    {
        let recent = HeapCircularBuffer::with_capacity(alloc, last as usize)?;
        Ok(Traffic {
            totals: [0; 7],
            recent,
        })
    }

    /// Adds the newest note. The oldest kept one goes where there is no room, and a total stays at 2^64 - 1.
    pub fn note(&mut self, n: Note)
        ensures { self.new ≡ noted self.old n }
    {
        let place = n.kind.place();
        self.totals[place] = self.totals[place].saturating_add(1);
        self.recent.push_back(n);
    }

    /// How many notes of this kind there were, up to 2^64 - 1.
    pub fn total(&self, k: Kind) -> u64
        ensures { result ≡ total_of self.now k }
    {
        self.totals[k.place()]
    }

    /// How many notes are kept now.
    pub fn kept(&self) -> usize
        ensures { result ≡ length self.now.notes }
    {
        self.recent.len()
    }

    /// A kept note by its place, the oldest of them first.
    pub fn last(&self, place: usize) -> Option<Note>
        ensures { result ≡ slice_get self.now.notes place }
    {
        self.recent.get(place).copied()
    }
}
