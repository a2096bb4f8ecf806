// What a report is made of.
ghost use Rattle.std.specs.Prelude.{◌≡◌, ◌<◌, ◌≤◌, ◌/◌, length, slice_get};
ghost use Rattle.conda_base.specs.Lines.{IsLineSize, IsLineOf, line_number};
ghost use Rattle.conda_base.specs.Bytes.{handed_out};
ghost use Rattle.run_report.specs.View.{View, IsShown, line_bytes_at};

use conda_base::{Line, Mesi};
use offload_calls::{CoreStatus, HartStatus};
use rv32_hart::Regs;
use traffic_trace::Traffic;

/// A simulator, as its report shows it.
pub trait Shown {
    ghost shown: { Self → View };

    /// The number of harts.
    fn harts(&self) -> u8
        ensures value { result ≡ (shown self.now).harts }
        ensures few { result ≤ 8 };

    /// The number of near-data cores.
    fn cores(&self) -> u8
        ensures value { result ≡ (shown self.now).cores }
        ensures few { result ≤ 4 };

    /// A hart, by its number.
    fn hart(&self, i: u8) -> (Regs, HartStatus)
        requires { i < (shown self.now).harts }
        ensures regs { result.0 ≡ ((shown self.now).hart i).regs }
        ensures status { result.1 ≡ ((shown self.now).hart i).status };

    /// A near-data core, by its number.
    fn core(&self, j: u8) -> (Regs, CoreStatus)
        requires { j < (shown self.now).cores }
        ensures regs { result.0 ≡ ((shown self.now).core j).regs }
        ensures status { result.1 ≡ ((shown self.now).core j).status };

    /// The number of sets of each hart's cache.
    fn sets(&self) -> u32
        ensures value { result ≡ (shown self.now).sets }
        ensures kept { IsShown (shown self.now) };

    /// The line of a way of a set of a hart's cache, way 0 being the most recent.
    fn slot(&self, i: u8, set: u32, way: u32) -> Option<(Line, Mesi)>
        requires hart { i < (shown self.now).harts }
        requires set { set < (shown self.now).sets }
        ensures { result ≡ slice_get ((shown self.now).tags i set) way };

    /// The notes of traffic so far.
    fn traffic(&self) -> &Traffic
        ensures value { result.now ≡ (shown self.now).trace }
        ensures kept { IsShown (shown self.now) };

    /// The first line of memory, and the number of lines.
    fn lines(&self) -> (Line, u32)
        ensures first { result.0.0 ≡ line_number (shown self.now).base (shown self.now).line_bytes }
        ensures many { result.1 ≡ length (shown self.now).memory / (shown self.now).line_bytes }
        ensures kept { IsShown (shown self.now) };

    /// The bytes of a line: 32, 64 or 128.
    fn line_bytes(&self) -> u32
        ensures value { result ≡ (shown self.now).line_bytes }
        ensures size { IsLineSize result };

    /// Hands out the bytes of a line of memory, and zeros after them.
    fn line(&self, l: Line, out: &mut [u8; 128])
        requires { IsLineOf (shown self.now).base (length (shown self.now).memory)
            (shown self.now).line_bytes l.0 }
        ensures { out.new
            ≡ handed_out (line_bytes_at (shown self.now) (shown self.now).memory l.0) };

    /// Hands out the bytes of a line as they were loaded, and zeros after them.
    fn loaded(&self, l: Line, out: &mut [u8; 128])
        requires { IsLineOf (shown self.now).base (length (shown self.now).memory)
            (shown self.now).line_bytes l.0 }
        ensures { out.new
            ≡ handed_out (line_bytes_at (shown self.now) (shown self.now).loaded l.0) };
}
