// Copies of the names of files.
ghost use Rattle.std.specs.Prelude.{◌≡◌, IfOk, option_map, string_bytes};
ghost use Rattle.conda_engine.specs.Files.{names_in, run_names_of};
ghost use Rattle.command_run.specs.Names.{run_names};
ghost use Rattle.command_words.specs.Words.{named};

use command_run::RunNames;
use command_words::RunFiles;
use std::alloc::{AllocError, Global};

/// The names of a run's files.
#[derive(Drop)]
pub struct FileWords {
    pub config: String,
    pub image: String,
    pub schedule: String,
    pub order: String,
    pub report: String,
    pub output: Option<String>,
}

// A copy of a name, if it is given.
fn copy_of(alloc: Global, name: Option<&str>) -> Result<Option<String>, AllocError>
    ensures { IfOk result (λ copy. option_map string_bytes copy
        ≡ option_map (λ s. s.now) name.entry) }
{
    match name {
        Some(name) => Ok(Some(String::from_str(alloc, name)?)),
        None => Ok(None),
    }
}

/// Copies of names.
pub fn copy_names(alloc: Global, names: &RunFiles) -> Result<FileWords, AllocError>
    ensures { IfOk result (λ words. names_in words ≡ named names.now) }
{
    Ok(FileWords {
        config: String::from_str(alloc, names.config)?,
        image: String::from_str(alloc, names.image)?,
        schedule: String::from_str(alloc, names.schedule)?,
        order: String::from_str(alloc, names.order)?,
        report: String::from_str(alloc, names.report)?,
        output: copy_of(alloc, names.output)?,
    })
}

// A name that may be missing, as a borrow.
fn name_of(name: &Option<String>) -> Option<&str>
    ensures { option_map (λ s. s.now) result ≡ option_map string_bytes name.now }
{
    match name {
        Some(name) => Some(name.as_str()),
        None => None,
    }
}

/// The names of the files that a run uses from where its schedule is opened.
pub fn run_names(files: &FileWords) -> RunNames<'_>
    ensures { run_names result ≡ run_names_of (names_in files.now) }
{
    RunNames {
        schedule: files.schedule.as_str(),
        order: files.order.as_str(),
        report: files.report.as_str(),
        output: name_of(&files.output),
    }
}
