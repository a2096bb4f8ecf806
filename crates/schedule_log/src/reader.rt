// A schedule that comes in pieces.
ghost use Rattle.std.specs.Prelude.{◌≡◌, ℕ, ◌+◌, ◌^◌, ◌<◌, ◌≤◌, ◌↔◌, [], ◌∷◌, length, take, None, IsSome};
ghost use Rattle.schedule_log.specs.Schedule.{is_feed};
ghost use Rattle.schedule_log.specs.Findings.{at_start, bad_by, feeds_in, given_by, left_over, said_by, found_in, used_by, answer_at, Fails, Feeds, IsBegun, IsEndedWell, IsUsed};
ghost use Rattle.schedule_log.specs.Steps.{after_byte, after_line, said_at};

use crate::fed::{Fed, Last};
use crate::line::{BadLine, Reading, TOO_LONG, read_whole};
use arrayvec::ArrayVec;
use std::marker::Model;

/// Reads a schedule for a chip, whatever pieces it comes in. It keeps at most one line's bytes.
#[derive(Drop)]
pub struct Reader {
    harts: u8,
    cores: u8,
    ended: u64,
    begun: ArrayVec<u8, 32>,
    bad: Option<BadLine>,
}

impl Model for Reader {
    ghost use Rattle.std.specs.Prelude.{◌≡◌, ◌+◌, ◌^◌, ◌<◌, ◌≤◌, false, length};
    ghost use Rattle.std.specs.List.{list_any};
    ghost use Rattle.schedule_log.specs.Schedule.{is_feed};
    ghost use Rattle.schedule_log.specs.Findings.{Progress};

    ghost Value = { Progress };

    ghost view = { λ r. record {
      harts = r.harts;
      cores = r.cores;
      ended = r.ended;
      begun = r.begun.items;
      bad = r.bad;
    } };

    ghost invariant = { λ r. (list_any is_feed r.begun.items ≡ false)
        × (length r.begun.items ≤ 32) × (r.ended + 1 < 2 ^ 64) };
}

impl Reader {
    /// A reader at the start of a schedule.
    pub fn new(harts: u8, cores: u8) -> Reader
        ensures { result ≡ at_start harts cores }
    {
        Reader {
            harts,
            cores,
            ended: 0,
            begun: ArrayVec::new(),
            bad: None,
        }
    }

    // Takes what the line begun says, and begins the next one.
    fn end_line(&mut self, reading: Reading)
        requires { self.old.ended + 2 < 2 ^ 64 }
        ensures { self.new ≡ after_line self.old reading }
    {
        match reading {
            Reading::Bad { why } => {
                self.bad = Some(BadLine {
                    line: self.ended + 1,
                    why,
                });
            }
            Reading::Blank | Reading::Events { .. } => {
                self.ended += 1;
                self.begun.clear();
            }
        }
    }

    // Takes one byte, and tells what it brings.
    fn take(&mut self, byte: u8) -> Reading
        requires { self.old.ended + 2 < 2 ^ 64 }
        ensures state { self.new ≡ after_byte self.old byte }
        ensures said { result ≡ said_at self.old byte }
        ensures begun { IsBegun self.old.begun }
    {
        if byte == b'\n' {
            let reading = read_whole(self.harts, self.cores, self.begun.as_slice());
            self.end_line(reading);
            reading
        } else if self.begun.is_full() {
            let reading = Reading::Bad { why: TOO_LONG };
            self.end_line(reading);
            reading
        } else {
            self.begun.push(byte);
            Reading::Blank
        }
    }

    /// Takes the next piece, up to the end of the first line in it that asks for events. After a bad line it takes
    /// nothing more.
    pub fn feed(&mut self, piece: &[u8]) -> Fed
        requires { self.old.ended < 2 ^ 62 }
        ensures feeds { Feeds self.old (take (used_by result piece.now) piece.now) (given_by result)
            self.new }
        ensures answer { result
            ≡ answer_at (used_by result piece.now) (found_in self.old piece.now) }
        ensures used { IsUsed self.old result piece.now }
        ensures more { (result ≡ Fed.More (length piece.now)) ↔ (found_in self.old piece.now ≡ []) }
        ensures bad_line { (line why : ℕ) →
            (result ≡ Fed.Bad line why) ↔ (found_in self.old piece.now ≡ Fails line why ∷ []) }
        ensures bad { self.new.bad ≡ bad_by result }
        ensures ended { self.new.bad ≡ None → self.new.ended
            ≡ self.old.ended + feeds_in (take (used_by result piece.now) piece.now) }
        ensures few { self.new.ended ≤ self.old.ended + used_by result piece.now }
        ensures begun { IsBegun self.new.begun }
        ensures chip { (self.new.harts ≡ self.old.harts) × (self.new.cores ≡ self.old.cores) }
        ensures stays { IsSome self.old.bad → self.new ≡ self.old }
    {
        if let Some(BadLine { line, why }) = self.bad {
            return Fed::Bad { line, why };
        }
        for (index, byte) in piece.iter().enumerate() {
            match self.take(*byte) {
                Reading::Blank => {}
                Reading::Events { actor, count } => {
                    return Fed::Events {
                        actor,
                        count,
                        used: index + 1,
                    };
                }
                Reading::Bad { why } => {
                    return Fed::Bad {
                        line: self.ended + 1,
                        why,
                    };
                }
            }
        }
        Fed::More { used: piece.len() }
    }

    /// What the schedule's end brings, where nothing follows the last piece.
    pub fn end(self) -> Last
        ensures said { said_by result ≡ left_over self }
        ensures nothing { (result ≡ Last.Nothing) ↔ IsEndedWell self }
    {
        if let Some(BadLine { line, why }) = self.bad {
            return Last::Bad { line, why };
        }
        match read_whole(self.harts, self.cores, self.begun.as_slice()) {
            Reading::Blank => Last::Nothing,
            Reading::Events { actor, count } => Last::Events { actor, count },
            Reading::Bad { why } => Last::Bad {
                line: self.ended + 1,
                why,
            },
        }
    }
}
