// The report's text among streams.
ghost use Rattle.std.specs.Prelude.{◌≡◌, Some, None};
ghost use Rattle.run_report.specs.Writes.{Wrote, WrotePart};

use crate::ReportTarget;
use conda_host::Role;
use streams::{Fault, Streams, put_all};

/// The text of the role Report.
#[derive(Drop)]
pub struct ReportFile<'a, S> {
    pub streams: &'a mut S,
}

impl<'a, S: Streams> ReportTarget for ReportFile<'a, S> {
    ghost use Rattle.std.proofs.Common.{refl, ◌∙◌};
    ghost use Rattle.conda_host.specs.declared.outside.Role.TheVariants as role;
    ghost use Rattle.streams.proofs.PutFacts.{puts_nothing, puts_trans, puts_front, front_and_more};

    type Stop = Fault;

    ghost wrote = { λ a b text. (b.streams.ghost_name ≡ a.streams.ghost_name)
        × Wrote (S.seen a.streams.now) (S.seen b.streams.now) text
        × S.leads a.streams.now b.streams.now None };

    ghost stopped = { λ a b fault text. (b.streams.ghost_name ≡ a.streams.ghost_name)
        × WrotePart (S.seen a.streams.now) (S.seen b.streams.now) text
        × S.leads a.streams.now b.streams.now (Some fault) };

    ghost joins = { record {
      nothing = λ a. (refl, puts_nothing (S.seen a.streams.now) role.Report, S.stays a.streams.now);
      both = λ a b c s t p q. (
        q.0 ∙ p.0,
        puts_trans p.1 q.1,
        S.goes_on a.streams.now b.streams.now c.streams.now None p.2 q.2,
      );
      after = λ a b c fault s t p q. (
        q.0 ∙ p.0,
        puts_front p.1 q.1,
        S.goes_on a.streams.now b.streams.now c.streams.now (Some fault) p.2 q.2,
      );
      early = λ a b fault s t p. (p.0, front_and_more t p.1, p.2);
    } };

    fn put(&mut self, text: &[u8]) -> Result<(), Fault> {
        put_all(self.streams, Role::Report, text)
    }
}
