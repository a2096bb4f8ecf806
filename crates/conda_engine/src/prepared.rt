// A run that is ready.
ghost use Rattle.std.specs.Prelude.{◌≡◌, ◌↔◌, None, Err, IfOk, IfErr, IfSome};
ghost use Rattle.command_words.specs.Words.{AreApart, named};
ghost use Rattle.conda_engine.specs.Files.{files_of};
ghost use Rattle.command_answers.specs.Preparing.{IsReadyFor, IsUnready, OnlyOpens, prepare_opens};
ghost use Rattle.command_answers.specs.StatusText.{IsTold};

use crate::files::{FileWords, copy_names};
use chip_config::Config;
use command_answers::{Status, load_image, read_config};
use command_words::{RunFiles, run_files};
use conda_host::Host;
use elf_loader::Image;
use machine_run::{Simulator, Task};
use std::alloc::{AllocError, Global};
use std::marker::Model;

/// A run that is ready: all its memory is taken, its machine is at the start, and no file was
/// created.
#[derive(Drop)]
pub struct Prepared<M: Simulator> {
    config: Config,
    entry: u32,
    files: FileWords,
    task: Task<M>,
}

impl<M: Simulator> Model for Prepared<M> {
    ghost use Rattle.std.specs.Prelude.{[], is_some};
    ghost use Rattle.chip_laws.specs.Design.{design_for};
    ghost use Rattle.command_words.specs.Words.{AreApart};
    ghost use Rattle.machine_run.specs.Tasks.{IsNewTask};
    ghost use Rattle.conda_engine.specs.Files.{names_in};
    ghost use Rattle.command_answers.specs.Preparing.{PreparedView};

    ghost Value = { PreparedView };

    ghost view = { λ p. record {
      config = p.config;
      image = record { entry = p.entry; code = M.code p.task.run.machine };
      files = names_in p.files;
    } };

    ghost invariant = { λ p. AreApart (names_in p.files)
        × IsNewTask (is_some (names_in p.files).output) p.task
        × M.stands (design_for p.config (record {
          entry = p.entry;
          code = M.code p.task.run.machine;
        })) p.task.run.machine [] };
}

impl<M: Simulator> Prepared<M> {
    ghost use Rattle.std.specs.Prelude.{◌≡◌, [], length, IfOk, is_some};
    ghost use Rattle.command_words.specs.Words.{AreApart, named};
    ghost use Rattle.machine_run.specs.Tasks.{IsNewTask};
    ghost use Rattle.conda_engine.specs.Files.{names_in};
    ghost use Rattle.command_answers.specs.Preparing.{design_in};

    // Takes the memory of a run.
    fn new(
        alloc: Global,
        config: Config,
        names: &RunFiles,
        image: Image,
    ) -> Result<Prepared<M>, AllocError>
        requires apart { AreApart (named names.now) }
        requires base { image.code.base ≡ config.mem_base }
        requires bytes { length image.code.bytes ≡ config.mem_bytes }
        ensures { IfOk result (λ p. p
            ≡ record { config = config; image = image; files = named names.now }) }
    {
        let files = copy_names(alloc, names)?;
        let entry = image.entry();
        let machine = M::build(alloc, &config, image)?;
        let task = Task::new(alloc, machine, names.output.is_some())?;
        Ok(Prepared {
            config,
            entry,
            files,
            task,
        })
    }

    // The files, and the run with its buffers.
    pub(crate) fn into_parts(self) -> (FileWords, Task<M>)
        ensures files { names_in result.0 ≡ self.files }
        ensures apart { AreApart (names_in result.0) }
        ensures new { IsNewTask (is_some (names_in result.0).output) result.1 }
        ensures stands { M.stands (design_in self) result.1.run.machine [] }
    {
        (self.files, self.task)
    }

    /// The machine's configuration.
    pub fn config(&self) -> &Config
        ensures { result.now ≡ self.now.config }
    {
        &self.config
    }
}

/// Reads configuration and image of these files.
pub(crate) fn prepare_files<M: Simulator, H: Host>(
    alloc: Global,
    names: &RunFiles,
    host: &mut H,
) -> Result<Prepared<M>, Status>
    requires { AreApart (named names.now) }
    ensures ready { IfOk result (IsReadyFor (named names.now) (H.state host.old)) }
    ensures unready { IfErr result (IsUnready (named names.now) (H.state host.old)
        (H.state host.new)) }
    ensures told { IfErr result IsTold }
    ensures rest { OnlyOpens (prepare_opens result) (H.state host.old) (H.state host.new) }
{
    let config = read_config(alloc, names.config, host)?;
    let image = load_image(alloc, &config, names.image, host)?;
    let prepared = Prepared::new(alloc, config, names, image)?;
    Ok(prepared)
}

/// Reads configuration and image of the run that the words are, and takes all memory that it needs.
///
/// Where memory runs out the answer is `OutOfMemory`; no clause says when.
pub fn prepare<M: Simulator, H: Host>(
    alloc: Global,
    words: &[String],
    host: &mut H,
) -> Result<Prepared<M>, Status>
    // Configuration and image are what their files say, and the files are those of the words.
    ensures ready { IfOk result (λ p. IfSome (files_of words.now) (λ files. IsReadyFor files
        (H.state host.old) p)) }

    // The words alone decide whether it is Usage, and then nothing is touched.
    ensures usage { (result ≡ Err Status.Usage) ↔ (files_of words.now ≡ None) }
    ensures untouched { result ≡ Err Status.Usage → H.state host.new ≡ H.state host.old }

    // Any other refusal is what the bytes lead to, or a fault whose count rose, or want of memory.
    ensures unready { IfErr result (λ e. IfSome (files_of words.now) (λ files. IsUnready files
        (H.state host.old) (H.state host.new) e)) }
    ensures told { IfErr result IsTold }

    // No file is changed, no role is created, and only configuration and image are opened: the image
    // only after the configuration was taken.
    ensures unmade { OnlyOpens (prepare_opens result) (H.state host.old) (H.state host.new) }
{
    let Some(names) = run_files(words) else {
        return Err(Status::Usage);
    };
    prepare_files(alloc, &names, host)
}
