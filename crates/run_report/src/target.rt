// What a report is put into.
ghost use Rattle.std.specs.Prelude.{ℕ, List};
ghost use Rattle.run_report.specs.Writes.{IsWriting, Writes};

/// Takes the text of a report piece by piece.
pub trait ReportTarget {
    /// Why it takes no more.
    type Stop;

    // The text was taken whole, which led from the first to the second.
    ghost wrote: { Self → Self → List ℕ → Type 0 };

    // It stopped within the text, and takes nothing of what follows it.
    ghost stopped: { Self → Self → Self.Stop → List ℕ → Type 0 };

    /// Takes the next piece.
    fn put(&mut self, text: &[u8]) -> Result<(), Self::Stop>
        ensures { Writes wrote stopped self.old self.new text.now result };

    // Pieces one after another are one text, and where it stopped in one it stopped in all.
    ghost joins: { IsWriting wrote stopped };
}
