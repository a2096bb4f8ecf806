// The lines of the report, each ended by a line feed.
ghost use Rattle.std.specs.Prelude.{◌≡◌, ◌+◌, ◌<◌, ◌≤◌, [], ◌∷◌, ◌++◌, length, codes};
ghost use Rattle.std.specs.Fmt.{decimal};
ghost use Rattle.arrayvec.specs.ArrayVec.{array_vec_len};
ghost use Rattle.conda_base.specs.Digits.{hex_word};
ghost use Rattle.run_report.specs.Texts.{head_text, trap_text, hart_status_text, core_status_text, hart_line_text, core_line_text, register_line_text, changed_line_text, state_text_of, tag_line_text, kind_text, total_text, totals_line_text, note_line_text};

use crate::hex::push_bytes_digits;
use arrayvec::ArrayVec;
use conda_base::{Mesi, push_bytes, push_decimal, word_digits};
use offload_calls::{CoreStatus, HartStatus};
use rv32_hart::Trap;
use traffic_trace::{Kind, Traffic};

/// Room for the longest line, which has 271 bytes.
pub type TextLine = ArrayVec<u8, 288>;

fn push_number(out: &mut TextLine, number: u8)
    requires { array_vec_len out.old + 3 ≤ 288 }
    ensures text { out.new.items ≡ out.old.items ++ decimal number }
    ensures len { array_vec_len out.new ≤ array_vec_len out.old + 3 }
{
    push_decimal(out, u64::from(number));
}

fn push_count(out: &mut TextLine, count: u64)
    requires { array_vec_len out.old + 20 ≤ 288 }
    ensures text { out.new.items ≡ out.old.items ++ decimal count }
    ensures len { array_vec_len out.new ≤ array_vec_len out.old + 20 }
{
    push_decimal(out, count);
}

fn push_word(out: &mut TextLine, word: u32)
    requires { array_vec_len out.old + 8 ≤ 288 }
    ensures text { out.new.items ≡ out.old.items ++ hex_word word }
    ensures len { array_vec_len out.new ≡ array_vec_len out.old + 8 }
{
    push_bytes(out, &word_digits(word));
}

fn push_trap(out: &mut TextLine, trap: Trap)
    requires { array_vec_len out.old + 17 ≤ 288 }
    ensures text { out.new.items ≡ out.old.items ++ trap_text trap }
    ensures len { array_vec_len out.new ≤ array_vec_len out.old + 17 }
{
    push_bytes(out, b"trap ");
    push_number(out, trap.cause);
    push_bytes(out, b" ");
    push_word(out, trap.value);
}

// A word of five letters and the value that goes with it.
fn push_valued(out: &mut TextLine, word: &[u8], value: u32)
    requires room { array_vec_len out.old + 13 ≤ 288 }
    requires word { length word.now ≡ 5 }
    ensures text { out.new.items ≡ out.old.items ++ (word.now ++ hex_word value) }
    ensures len { array_vec_len out.new ≤ array_vec_len out.old + 13 }
{
    push_bytes(out, word);
    push_word(out, value);
}

fn push_hart_status(out: &mut TextLine, status: HartStatus)
    requires { array_vec_len out.old + 17 ≤ 288 }
    ensures text { out.new.items ≡ out.old.items ++ hart_status_text status }
    ensures len { array_vec_len out.new ≤ array_vec_len out.old + 17 }
{
    match status {
        HartStatus::Run => push_bytes(out, b"run"),
        HartStatus::Exit(value) => push_valued(out, b"exit ", value),
        HartStatus::Trapped(trap) => push_trap(out, trap),
    }
}

fn push_core_status(out: &mut TextLine, status: CoreStatus)
    requires { array_vec_len out.old + 17 ≤ 288 }
    ensures text { out.new.items ≡ out.old.items ++ core_status_text status }
    ensures len { array_vec_len out.new ≤ array_vec_len out.old + 17 }
{
    match status {
        CoreStatus::Idle => push_bytes(out, b"idle"),
        CoreStatus::Run => push_bytes(out, b"run"),
        CoreStatus::Done(value) => push_valued(out, b"done ", value),
        CoreStatus::Trapped(trap) => push_trap(out, trap),
    }
}

// The end of the first line of a hart or core.
fn push_place(out: &mut TextLine, pc: u32)
    requires { array_vec_len out.old + 13 ≤ 288 }
    ensures { out.new.items ≡ out.old.items ++ codes " pc " ++ hex_word pc ++ 10 ∷ [] }
{
    push_bytes(out, b" pc ");
    push_word(out, pc);
    push_bytes(out, b"\n");
}

/// The first two lines: the events run, and the bytes of output.
#[tactic(auto, unfolding(crate::specs::Texts::head_text))]
pub fn head_lines(events: u64, out: u64) -> TextLine
    ensures { result.items ≡ head_text events out }
{
    let mut line = ArrayVec::new();
    push_bytes(&mut line, b"events ");
    push_count(&mut line, events);
    push_bytes(&mut line, b"\noutput ");
    push_count(&mut line, out);
    push_bytes(&mut line, b"\n");
    line
}

/// The first line of a hart.
#[tactic(auto, unfolding(crate::specs::Texts::hart_line_text))]
pub fn hart_line(number: u8, status: HartStatus, pc: u32) -> TextLine
    ensures { result.items ≡ hart_line_text number status pc }
{
    let mut line = ArrayVec::new();
    push_bytes(&mut line, b"hart ");
    push_number(&mut line, number);
    push_bytes(&mut line, b" ");
    push_hart_status(&mut line, status);
    push_place(&mut line, pc);
    line
}

/// The first line of a near-data core.
#[tactic(auto, unfolding(crate::specs::Texts::core_line_text))]
pub fn core_line(number: u8, status: CoreStatus, pc: u32) -> TextLine
    ensures { result.items ≡ core_line_text number status pc }
{
    let mut line = ArrayVec::new();
    push_bytes(&mut line, b"core ");
    push_number(&mut line, number);
    push_bytes(&mut line, b" ");
    push_core_status(&mut line, status);
    push_place(&mut line, pc);
    line
}

/// The line of a register.
#[tactic(auto, unfolding(crate::specs::Texts::register_line_text))]
pub fn register_line(number: u8, value: u32) -> TextLine
    ensures { result.items ≡ register_line_text number value }
{
    let mut line = ArrayVec::new();
    push_bytes(&mut line, b"x");
    push_number(&mut line, number);
    push_bytes(&mut line, b" ");
    push_word(&mut line, value);
    push_bytes(&mut line, b"\n");
    line
}

/// The line of a line of memory, by its address and its bytes.
#[tactic(auto, unfolding(crate::specs::Texts::changed_line_text))]
pub fn changed_line(addr: u32, bytes: &[u8]) -> TextLine
    requires { length bytes.now ≤ 128 }
    ensures { result.items ≡ changed_line_text addr bytes.now }
{
    let mut line = ArrayVec::new();
    push_bytes(&mut line, b"line ");
    push_word(&mut line, addr);
    push_bytes(&mut line, b" ");
    push_bytes_digits(&mut line, bytes);
    push_bytes(&mut line, b"\n");
    line
}

fn state_letter(state: Mesi) -> u8
    ensures { result ∷ [] ≡ state_text_of state }
{
    match state {
        Mesi::M => b'M',
        Mesi::E => b'E',
        Mesi::S => b'S',
    }
}

/// The line of a line of a hart's cache.
#[tactic(auto, unfolding(crate::specs::Texts::tag_line_text))]
pub fn tag_line(hart: u8, addr: u32, state: Mesi) -> TextLine
    ensures { result.items ≡ tag_line_text hart addr state }
{
    let mut line = ArrayVec::new();
    push_bytes(&mut line, b"tag ");
    push_number(&mut line, hart);
    push_bytes(&mut line, b" ");
    push_word(&mut line, addr);
    push_bytes(&mut line, b" ");
    push_bytes(&mut line, &[state_letter(state)]);
    push_bytes(&mut line, b"\n");
    line
}

fn kind_word(kind: Kind) -> &'static [u8]
    ensures text { result.now ≡ kind_text kind }
    ensures short { length result.now ≤ 8 }
{
    match kind {
        Kind::Fill => b"fill",
        Kind::Back => b"back",
        Kind::Down => b"down",
        Kind::Drop => b"drop",
        Kind::Evict => b"evict",
        Kind::CoreFill => b"corefill",
        Kind::Merge => b"merge",
    }
}

fn push_total(out: &mut TextLine, traffic: &Traffic, kind: Kind)
    requires { array_vec_len out.old + 30 ≤ 288 }
    ensures text { out.new.items ≡ out.old.items ++ total_text traffic.now kind }
    ensures len { array_vec_len out.new ≤ array_vec_len out.old + 30 }
{
    push_bytes(out, b" ");
    push_bytes(out, kind_word(kind));
    push_bytes(out, b" ");
    push_count(out, traffic.total(kind));
}

/// The line of the seven totals.
#[tactic(auto, unfolding(crate::specs::Texts::totals_line_text))]
pub fn totals_line(traffic: &Traffic) -> TextLine
    ensures { result.items ≡ totals_line_text traffic.now }
{
    let mut line = ArrayVec::new();
    push_bytes(&mut line, b"traffic");
    push_total(&mut line, traffic, Kind::Fill);
    push_total(&mut line, traffic, Kind::Back);
    push_total(&mut line, traffic, Kind::Down);
    push_total(&mut line, traffic, Kind::Drop);
    push_total(&mut line, traffic, Kind::Evict);
    push_total(&mut line, traffic, Kind::CoreFill);
    push_total(&mut line, traffic, Kind::Merge);
    push_bytes(&mut line, b"\n");
    line
}

/// The line of a note.
#[tactic(auto, unfolding(crate::specs::Texts::note_line_text))]
pub fn note_line(kind: Kind, who: u8, addr: u32) -> TextLine
    ensures { result.items ≡ note_line_text kind who addr }
{
    let mut line = ArrayVec::new();
    push_bytes(&mut line, b"note ");
    push_bytes(&mut line, kind_word(kind));
    push_bytes(&mut line, b" ");
    push_number(&mut line, who);
    push_bytes(&mut line, b" ");
    push_word(&mut line, addr);
    push_bytes(&mut line, b"\n");
    line
}
