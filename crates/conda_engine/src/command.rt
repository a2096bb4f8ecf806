// The commands.
ghost use Rattle.std.specs.Prelude.{◌≡◌, ◌≢◌, ◌⊎◌, ◌↔◌, None, IfSome};
ghost use Rattle.command_words.specs.Words.{AreApart, named};
ghost use Rattle.command_answers.specs.Answers.{Answers};
ghost use Rattle.conda_engine.specs.Commands.{AnswersAsked, HoldsAtDone, IsAnswerOf, asked_of};
ghost use Rattle.conda_engine.specs.Ends.{IsLate, account_of};
ghost use Rattle.conda_engine.specs.Headline.{HasHeadlineAtDone};
ghost use Rattle.command_answers.specs.Preparing.{IsEarly};
ghost use Rattle.conda_engine.specs.Rows.{run_command, run_outcome};
ghost use Rattle.command_answers.specs.StatusText.{IsTold};

use crate::driving::drive;
use crate::generated::self_run;
use crate::prepared::{Prepared, prepare_files};
use assembly_commands::{asm, dis};
use chip_core::Chip;
use command_answers::Status;
use command_words::{Command, Mode, RunFiles, command_of};
use conda_host::Host;
use machine_run::{Machine, Simulator};
use nda_fine::FineChip;
use std::alloc::Global;

// Runs a schedule on a machine.
fn run<M: Simulator, H: Host>(alloc: Global, names: &RunFiles, host: &mut H) -> Status
    requires { AreApart (named names.now) }
    ensures answers { Answers (run_command (named names.now))
        (run_outcome (account_of ⟦<M as Machine>⟧ M.report) (named names.now) (H.state host.old))
        (H.state host.old) (H.state host.new) result }
    ensures headline { HasHeadlineAtDone (account_of ⟦<M as Machine>⟧ M.report) M.law
        (named names.now) (H.state host.old) (H.state host.new) result }
    ensures end { IsEarly result ⊎ IsLate result }
    ensures told { IsTold result }
    ensures known { result ≢ Status.Usage }
{
    let prepared: Result<Prepared<M>, Status> = prepare_files(alloc, names, host);
    match prepared {
        Ok(prepared) => {
            let (status, _) = drive(prepared, host);
            status
        }
        Err(status) => status,
    }
}

/// Runs the command that the words are: `run`, `fine`, `self`, `asm` or `dis` with its options.
///
/// Where memory runs out the answer is `OutOfMemory`; no clause says when.
pub fn conda<H: Host>(alloc: Global, words: &[String], host: &mut H) -> Status
    // The words alone decide whether it is Usage, and then nothing is touched.
    ensures usage { (result ≡ Status.Usage) ↔ (asked_of words.now ≡ None) }
    ensures untouched { result ≡ Status.Usage → H.state host.new ≡ H.state host.old }

    // What it answers and leaves, by what the bytes of its files lead to.
    ensures answers { IfSome (asked_of words.now)
        (AnswersAsked (H.state host.old) (H.state host.new) result) }

    // Whatever the host tells, it is an answer that the command has.
    ensures end { IfSome (asked_of words.now) (IsAnswerOf result) }

    // At Done the files of a run are the texts of one flat memory that executes the written order,
    // and the laws hold of its events, as of those of a generated workload. A program that is
    // assembled can be loaded, and the text of an image is assembled to it again.
    ensures headline { IfSome (asked_of words.now)
        (HoldsAtDone (H.state host.old) (H.state host.new) result) }

    // Want of memory is a status of its own, also where the configuration or the image finds none.
    ensures told { IsTold result }
{
    match command_of(words) {
        Some(Command::Run(Mode::Conda, files)) => run::<Chip, H>(alloc, &files, host),
        Some(Command::Run(Mode::Fine, files)) => run::<FineChip, H>(alloc, &files, host),
        Some(Command::Asm(files)) => asm(alloc, &files, host),
        Some(Command::Dis(files)) => dis(alloc, &files, host),
        Some(
            Command::SelfRun {
                seed,
                events,
                report,
            },
        ) => self_run(alloc, seed, events, report, host),
        None => Status::Usage,
    }
}
