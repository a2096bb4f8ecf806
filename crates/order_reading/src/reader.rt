// An order that comes in pieces.
ghost use Rattle.std.specs.Prelude.{◌≡◌, ◌+◌, ◌^◌, ◌<◌, [], true, false};
ghost use Rattle.schedule_log.specs.EntryReading.{entry_in};
ghost use Rattle.schedule_log.specs.Findings.{IsBegun};
ghost use Rattle.order_reading.specs.Reading.{at_start, after_feed, ends_line, is_bad, Ends, Feeds, StaysBad, Takes};

use crate::fed::{Fed, Last, NO_ENTRY};
use arrayvec::ArrayVec;
use schedule_log::{Entry, read_entry};
use std::marker::Model;

/// What one byte brings.
#[derive(Clone, Copy)]
enum Taken {
    Nothing,
    Entry(Entry),
    Bad,
}

/// Reads an order, whatever pieces it comes in. It keeps at most one line's bytes.
#[derive(Drop)]
pub struct OrderReader {
    ended: u64,
    begun: ArrayVec<u8, 32>,
    bad: bool,
}

impl Model for OrderReader {
    ghost use Rattle.std.specs.Prelude.{◌+◌, ◌^◌, ◌<◌};
    ghost use Rattle.schedule_log.specs.Findings.{IsBegun};
    ghost use Rattle.order_reading.specs.Reading.{Progress};

    ghost Value = { Progress };

    ghost view = { λ r. record { ended = r.ended; begun = r.begun.items; bad = r.bad } };

    ghost invariant = { λ r. IsBegun r.begun.items × (r.ended + 1 < 2 ^ 64) };
}

impl OrderReader {
    /// A reader at the start of an order.
    pub fn new() -> OrderReader
        ensures { result ≡ at_start }
    {
        OrderReader {
            ended: 0,
            begun: ArrayVec::new(),
            bad: false,
        }
    }

    // Takes the line feed that ends the line begun.
    fn end_line(&mut self) -> Taken
        requires { self.old.ended + 2 < 2 ^ 64 }
        ensures { Takes self.old 10 result self.new }
    {
        match read_entry(self.begun.as_slice()) {
            Some(entry) => {
                self.ended += 1;
                self.begun.clear();
                Taken::Entry(entry)
            }
            None => {
                self.bad = true;
                Taken::Bad
            }
        }
    }

    // Takes one byte, and tells what it brings.
    fn take(&mut self, byte: u8) -> Taken
        requires { self.old.ended + 2 < 2 ^ 64 }
        ensures { Takes self.old byte result self.new }
    {
        if byte == b'\n' {
            return self.end_line();
        }
        if self.begun.is_full() {
            self.bad = true;
            return Taken::Bad;
        }
        self.begun.push(byte);
        Taken::Nothing
    }

    /// Takes the next piece, up to the end of the first line in it. After a bad line it takes nothing more.
    pub fn feed(&mut self, piece: &[u8]) -> Fed
        requires { self.old.ended + 2 < 2 ^ 64 }
        ensures feeds { self.old.bad ≡ false → Feeds self.old piece.now result self.new }
        ensures bad { self.new.bad ≡ is_bad result }
        ensures ended { self.new.ended ≡ self.old.ended + ends_line result }
        ensures begun { IsBegun self.new.begun }
        ensures stays { self.old.bad ≡ true → StaysBad self.old result self.new }
    {
        if self.bad {
            return Fed::Bad {
                line: self.ended + 1,
                why: NO_ENTRY,
            };
        }
        for (index, byte) in piece.iter().enumerate() {
            match self.take(*byte) {
                Taken::Nothing => {}
                Taken::Entry(entry) => {
                    return Fed::Entry {
                        entry,
                        used: index + 1,
                    };
                }
                Taken::Bad => {
                    return Fed::Bad {
                        line: self.ended + 1,
                        why: NO_ENTRY,
                    };
                }
            }
        }
        Fed::More { used: piece.len() }
    }

    /// What the order's end brings, where nothing follows the last piece.
    pub fn end(self) -> Last
        ensures { Ends self result }
    {
        if self.bad || !self.begun.is_empty() {
            Last::Bad {
                line: self.ended + 1,
                why: NO_ENTRY,
            }
        } else {
            Last::Nothing
        }
    }
}
