// Worked examples: a chip that stands still, and the texts of single lines.
ghost use Rattle.std.specs.Prelude.{◌≡◌, Some, None, All, OnOk};
ghost use Rattle.conda_host.specs.declared.outside.Role.TheVariants as role;
ghost use Rattle.streams.specs.Sink.{SinkView};
ghost use Rattle.streams.specs.Streaming.{AreMade};
ghost use Rattle.run_report.specs.View.{IsAddressed};

use crate::line::{changed_line, core_line, hart_line, note_line, tag_line};
use crate::{Shown, write};
use conda_base::{Line, Mesi};
use conda_host::{Host, MemoryHost, Role};
use offload_calls::{CoreStatus, HartStatus};
use rv32_hart::{Regs, Trap};
use std::alloc::{AllocError, Global};
use std::test::Fail;
use streams::{Fault, MOST_PUT, Sink, SinkFiles, Sinks};
use traffic_trace::{Kind, Note, Traffic};

// A hart and a core that have not run, one line of memory, of which two bytes changed, in the hart's cache, and its fill.
#[derive(Drop)]
struct Still {
    hart: Regs,
    core: Regs,
    traffic: Traffic,
    ghost addressed: { All (λ note. IsAddressed 32 note.line) traffic.notes },
}

impl Shown for Still {
    ghost use Rattle.std.specs.Prelude.{[], ◌∷◌, replicate};
    ghost use Rattle.conda_base.specs.declared.Mesi.TheVariants.{M};
    ghost use Rattle.run_report.specs.View.{View};
    ghost use Rattle.offload_calls.specs.declared.status.HartStatus.TheVariants as Hart_is;
    ghost use Rattle.offload_calls.specs.declared.status.CoreStatus.TheVariants as Core_is;

    ghost shown = { λ s. record {
      harts = 1;
      cores = 1;
      hart = λ i. record { regs = s.hart; status = Hart_is.Run };
      core = λ j. record { regs = s.core; status = Core_is.Idle };
      base = 64;
      line_bytes = 32;
      memory = 65 ∷ 66 ∷ replicate 30 0;
      loaded = replicate 32 0;
      sets = 1;
      tags = λ i set. (record { 0 = 2 }, M) ∷ [];
      trace = s.traffic;
    } };

    fn harts(&self) -> u8 {
        1
    }

    fn cores(&self) -> u8 {
        1
    }

    fn hart(&self, _i: u8) -> (Regs, HartStatus) {
        (self.hart, HartStatus::Run)
    }

    fn core(&self, _j: u8) -> (Regs, CoreStatus) {
        (self.core, CoreStatus::Idle)
    }

    fn sets(&self) -> u32 {
        1
    }

    fn slot(&self, _i: u8, _set: u32, way: u32) -> Option<(Line, Mesi)> {
        if way == 0 {
            Some((Line(2), Mesi::M))
        } else {
            None
        }
    }

    fn traffic(&self) -> &Traffic {
        &self.traffic
    }

    fn lines(&self) -> (Line, u32) {
        (Line(2), 1)
    }

    fn line_bytes(&self) -> u32 {
        32
    }

    fn line(&self, _l: Line, out: &mut [u8; 128]) {
        *out = [0; 128];
        out[0] = b'A';
        out[1] = b'B';
    }

    fn loaded(&self, _l: Line, out: &mut [u8; 128]) {
        *out = [0; 128];
    }
}

fn at_the_start(alloc: Global) -> Result<Still, AllocError> {
    let mut x = [0; 32];
    x[11] = 1;
    let mut traffic = Traffic::new(alloc, 1)?;
    traffic.note(Note {
        kind: Kind::Fill,
        who: 0,
        line: Line(2),
    });
    Ok(Still {
        hart: Regs { pc: 0x1_0000, x },
        core: Regs { pc: 0, x: [0; 32] },
        traffic,
    })
}

fn host(alloc: Global) -> Result<MemoryHost, AllocError> {
    let mut outputs = Vec::new(alloc);
    outputs.push(String::from_str(alloc, "report")?)?;
    MemoryHost::new(alloc, Vec::new(alloc), outputs, 400, 7, Vec::new(alloc))
}

fn create<H: Host>(host: &mut H) -> Result<(), Fault>
    ensures { OnOk result ((sink : SinkView) → sink.role ≡ role.Report
        → AreMade (H.state host.new) (record { first = Some sink; second = None })) }
{
    match host.create(Role::Report, "report") {
        Ok(()) => Ok(()),
        Err(_) => Err(Fault::Write(Role::Report)),
    }
}

fn write_over<H: Host>(files: &mut SinkFiles<'_, H>, chip: &Still) -> Result<(), Fault> {
    write(files, chip, 0, 0)?;
    files.finish()
}

// Writes the report of no event through a sink.
fn write_file<H: Host>(host: &mut H, sink: Sink, chip: &Still) -> Result<(), Fault>
    requires { sink.role ≡ role.Report }
{
    create(host)?;
    let mut sinks = Sinks {
        first: Some(sink),
        second: None,
    };
    write_over(&mut SinkFiles::new(host, &mut sinks), chip)
}

#[test]
fn a_chip_that_stands_still(rt: HostRuntime) -> Result<(), Fail> {
    let alloc = rt.alloc();
    let mut host = host(alloc)?;
    let sink = Sink::new(alloc, Role::Report, MOST_PUT)?;
    assert_eq!(rt; write_file(&mut host, sink, &at_the_start(alloc)?), Ok(()));
    let head =
        "events 0\noutput 0\nhart 0 run pc 00010000\nx11 00000001\ncore 0 idle pc 00000000\ntag 0 00000040 M\n";
    let line = "line 00000040 4142000000000000000000000000000000000000000000000000000000000000\n";
    let mut text = String::from_str(alloc, head)?;
    text.push_str(line)?;
    text.push_str(
        "traffic fill 1 back 0 down 0 drop 0 evict 0 corefill 0 merge 0\nnote fill 0 00000040\n",
    )?;
    assert_eq!(rt; host.file("report"), Some(text.as_bytes()));
    Ok(())
}

#[test]
fn lines_of_actors_and_memory(rt: HostRuntime) {
    let trap = Trap {
        cause: 4,
        value: 0xff_fffe,
    };
    let text = "hart 0 trap 4 00fffffe pc 00010004\n";
    assert_eq!(rt;
        hart_line(0, HartStatus::Trapped(trap), 0x1_0004).as_slice(),
        text.as_bytes()
    );
    let text = "core 0 done 00000040 pc 0001004c\n";
    assert_eq!(rt;
        core_line(0, CoreStatus::Done(64), 0x1_004c).as_slice(),
        text.as_bytes()
    );
    let text = "tag 1 00000100 S\n";
    assert_eq!(rt; tag_line(1, 0x100, Mesi::S).as_slice(), text.as_bytes());
    let text = "note corefill 2 00000080\n";
    assert_eq!(rt;
        note_line(Kind::CoreFill, 2, 128).as_slice(),
        text.as_bytes()
    );
    let text = "line 00000040 4142\n";
    assert_eq!(rt; changed_line(64, b"AB").as_slice(), text.as_bytes());
}
