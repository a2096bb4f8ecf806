// A memory of one line, of which its holder may have newer bytes than memory's own copy.
ghost use Rattle.std.specs.Prelude.{◌≡◌, ◌≤◌, false, length};
ghost use Rattle.conda_base.specs.Bytes.{handed_out};
ghost use Rattle.line_memory.specs.Notes.{all_noted, leave_notes};
ghost use Rattle.line_memory.specs.Tags.{is_in_m};

use conda_base::{Line, Mesi, put_marked};
use line_memory::Backing;
use traffic_trace::{Kind, Note, Traffic};

/// A line of 64 bytes, as memory has it and as users see it, and the state in which it is held.
#[derive(Drop)]
pub struct Lent {
    copy: [u8; 64],
    seen: [u8; 64],
    held: Option<Mesi>,
    ghost copy_size: { length copy ≡ 64 },
    ghost seen_size: { length seen ≡ 64 },
    ghost clean: { is_in_m held ≡ false → copy ≡ seen },
}

impl Lent {
    ghost use Rattle.line_memory.specs.Backing.{IsBacking, IsInRange, copy_of, view_of};

    /// A line that its holder has stored to.
    pub fn stored(copy: [u8; 64], seen: [u8; 64]) -> Lent {
        Lent {
            copy,
            seen,
            held: Some(Mesi::M),
        }
    }

    /// The holder writes the line back, where it has it modified.
    pub fn write_back(&mut self, log: &mut Traffic) {
        if let Some((_, l)) = self.next_dirty(0) {
            self.flush(l, log);
        }
    }

    // The rules of every backing.
    fn backing(&self)
        ensures { IsBacking (⟦<Lent as Backing>⟧.shown self.now) }
    {}

    // The only line is line 0.
    fn only_line(&self, l: Line)
        requires { IsInRange (⟦<Lent as Backing>⟧.shown self.now) l }
        ensures line { l.0 ≡ 0 }
        ensures copy { copy_of (⟦<Lent as Backing>⟧.shown self.now) l ≡ self.now.copy }
        ensures view { view_of (⟦<Lent as Backing>⟧.shown self.now) l ≡ self.now.seen }
    {}
}

impl Backing for Lent {
    ghost use Rattle.std.specs.Prelude.{zero, suc, Some, None, [], ◌∷◌};

    ghost shown = { λ m. record {
      line_bytes = 64;
      base = 0;
      holders = 1;
      sets = 1;
      ways = 1;
      view = m.seen;
      copies = m.copy;
      tags = λ holder set. elim holder [
        | zero ↦ elim set [
          | zero ↦ elim m.held [ None ↦ [] | Some state ↦ (record { 0 = 0 }, state) ∷ [] ]
          | suc s ↦ []
        ]
        | suc h ↦ []
      ];
    } };

    fn line_bytes(&self) -> u32 {
        self.backing();
        64
    }

    fn copy(&self, l: Line, out: &mut [u8; 128]) {
        self.backing();
        self.only_line(l);
        hand_out(&self.copy, out);
    }

    fn next_dirty(&self, from: usize) -> Option<(usize, Line)> {
        self.backing();
        match self.held {
            Some(Mesi::M) if from == 0 => Some((0, Line(0))),
            _ => None,
        }
    }

    fn flush(&mut self, l: Line, log: &mut Traffic) {
        self.copy = self.seen;
        self.held = Some(Mesi::E);
        log.note(Note {
            kind: Kind::Back,
            who: 0,
            line: l,
        });
        self.backing();
    }

    fn merge(&mut self, core: u8, l: Line, bytes: &[u8; 128], mask: u128, log: &mut Traffic) {
        self.only_line(l);
        note_leaving(self.held, l, log);
        self.held = None;
        put_marked(&mut self.seen, mask, &bytes[..64]);
        self.copy = self.seen;
        log.note(Note {
            kind: Kind::Merge,
            who: core,
            line: l,
        });
        self.backing();
    }
}

// Hands out the bytes of a line, and zeros after them.
fn hand_out(bytes: &[u8], out: &mut [u8; 128])
    requires { length bytes.now ≤ 128 }
    ensures { out.new ≡ handed_out bytes.now }
{
    let size = bytes.len();
    out[..size].copy_from_slice(bytes);
    out[size..].fill(0);
}

// Notes that the holder loses the line, which it has in this state.
fn note_leaving(held: Option<Mesi>, l: Line, log: &mut Traffic)
    ensures { log.new ≡ all_noted log.old (leave_notes l 0 held) }
{
    if let Some(state) = held {
        if state == Mesi::M {
            log.note(Note {
                kind: Kind::Back,
                who: 0,
                line: l,
            });
        }
        log.note(Note {
            kind: Kind::Drop,
            who: 0,
            line: l,
        });
    }
}
