// The first steps of a run: configuration and image are read.
ghost use Rattle.std.specs.Prelude.{◌≡◌, IsTrue, None, Ok, length, IfOk, IfErr, OnOk, OnErr};
ghost use Rattle.conda_host.specs.State.{IsReading, is_opened, Opens, Rose};
ghost use Rattle.conda_host.specs.Whole.{ReadsWhole};
ghost use Rattle.conda_host.specs.declared.outside.Role.TheVariants as role;
ghost use Rattle.chip_config.specs.Settings.{configured, settings};
ghost use Rattle.elf_loader.specs.Image.{image_of};
ghost use Rattle.command_answers.specs.Preparing.{HoldsFile, IsReadError, IsFileError, IsConfigured, IsBytesError, IsConfigError, IsImageError, IsLoaded, IsLoadError};
ghost use Rattle.command_answers.specs.StatusText.{IsTold};
ghost use Rattle.command_answers.specs.Verdict.{refusal_of};

use crate::Status;
use crate::limits::{CONFIG_LIMIT, IMAGE_LIMIT};
use chip_config::{Config, ConfigFault};
use conda_host::{Host, ReadError, Role, read_all};
use elf_loader::{Image, ImageFault, load};
use std::alloc::Global;

fn open<H: Host>(host: &mut H, role: Role, name: &str) -> Result<(), Status>
    ensures ok { OnOk result (Opens (H.state host.old) (H.state host.new) role name.now) }
    ensures err { IfErr result (λ e. e ≡ Status.ReadFault role) }
    ensures cause { OnErr result (Rose (H.state host.old) (H.state host.new) role name.now) }
    ensures rest { IsReading (H.state host.old) (H.state host.new) role }
{
    match host.open(role, name) {
        Ok(()) => Ok(()),
        Err(_) => Err(Status::ReadFault(role)),
    }
}

// All the bytes of an opened role, where they are no more than the limit.
fn read<H: Host>(alloc: Global, host: &mut H, role: Role, limit: usize) -> Result<Vec<u8>, Status>
    requires { IsTrue (is_opened (H.state host.old) role) }
    ensures ok { IfOk result (λ bytes. ReadsWhole (H.state host.old) role limit bytes.items) }
    ensures err { IfErr result (λ e. IsReadError (H.state host.old)
        (H.state host.new) role limit e) }
    ensures rest { IsReading (H.state host.old) (H.state host.new) role }
{
    match read_all(alloc, host, role, limit) {
        Ok(bytes) => Ok(bytes),
        Err(ReadError::Failed) => Err(Status::ReadFault(role)),
        Err(ReadError::TooLarge) => Err(Status::TooLarge {
            role,
            limit: limit as u64,
        }),
        Err(ReadError::OutOfMemory) => Err(Status::OutOfMemory),
    }
}

/// Reads a file.
pub fn read_file<H: Host>(
    alloc: Global,
    host: &mut H,
    role: Role,
    name: &str,
    limit: usize,
) -> Result<Vec<u8>, Status>
    ensures ok { IfOk result (λ file. HoldsFile (H.state host.old) name.now limit file.items) }
    ensures err { IfErr result (λ e. IsFileError (H.state host.old)
        (H.state host.new) role name.now limit e) }
    ensures rest { IsReading (H.state host.old) (H.state host.new) role }
{
    open(host, role, name)?;
    read(alloc, host, role, limit)
}

// What bytes say as a configuration.
fn config_of(alloc: Global, bytes: &[u8]) -> Result<Config, Status>
    ensures ok { IfOk result (λ config. configured bytes.now ≡ Ok (settings config)) }
    ensures err { IfErr result (IsBytesError bytes.now) }
    ensures told { IfErr result IsTold }
{
    match chip_config::read(alloc, bytes) {
        Ok(config) => Ok(config),
        Err(ConfigFault::OutOfMemory) => Err(Status::OutOfMemory),
        Err(fault) => Err(Status::Config(fault)),
    }
}

/// Reads the configuration.
pub fn read_config<H: Host>(alloc: Global, name: &str, host: &mut H) -> Result<Config, Status>
    ensures ok { IfOk result (λ config. IsConfigured (H.state host.old) name.now
        (settings config)) }
    ensures err { IfErr result (IsConfigError (H.state host.old) (H.state host.new) name.now) }
    ensures told { IfErr result IsTold }
    ensures rest { IsReading (H.state host.old) (H.state host.new) role.Config }
{
    let bytes = read_file(alloc, host, Role::Config, name, CONFIG_LIMIT)?;
    config_of(alloc, &bytes)
}

/// The image that bytes are.
pub fn image_in(alloc: Global, config: &Config, file: &[u8]) -> Result<Image, Status>
    ensures accepted { IfOk result (λ image. refusal_of (settings config.now) file.now ≡ None) }
    ensures image { IfOk result (λ image. image
        ≡ image_of file.now config.now.mem_base config.now.mem_bytes) }
    ensures size { IfOk result (λ image. length image.code.bytes ≡ config.now.mem_bytes) }
    ensures err { IfErr result (IsImageError (settings config.now) file.now) }
    ensures told { IfErr result IsTold }
{
    match load(alloc, file, config.mem_base, config.mem_bytes) {
        Ok(image) => Ok(image),
        Err(ImageFault::OutOfMemory) => Err(Status::OutOfMemory),
        Err(fault) => Err(Status::Image(fault)),
    }
}

/// Reads the image.
pub fn load_image<H: Host>(
    alloc: Global,
    config: &Config,
    name: &str,
    host: &mut H,
) -> Result<Image, Status>
    ensures ok { IfOk result (IsLoaded (settings config.now) (H.state host.old) name.now) }
    ensures err { IfErr result (IsLoadError (settings config.now) (H.state host.old)
        (H.state host.new) name.now) }
    ensures told { IfErr result IsTold }
    ensures rest { IsReading (H.state host.old) (H.state host.new) role.Image }
{
    let file = read_file(alloc, host, Role::Image, name, IMAGE_LIMIT)?;
    image_in(alloc, config, &file)
}
