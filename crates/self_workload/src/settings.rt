// The configuration of generated workloads.
ghost use Rattle.std.specs.Prelude.{◌≡◌, None};
ghost use Rattle.chip_config.specs.Settings.{settings};
ghost use Rattle.elf_loader.specs.Refusal.{refusal};
ghost use Rattle.self_workload.specs.Workload.{image_of_seed, workload_settings};

use chip_config::Config;

const HARTS: u32 = 2;

const CORES: u32 = 2;

/// The configuration of every generated workload: two harts and two near-data cores.
pub fn config() -> Config
    ensures { settings result ≡ workload_settings }
{
    let mut config = Config::plain();
    config.harts = HARTS;
    config.cores = CORES;
    config
}

/// A law: the image of a seed is refused by no rule of loading into the memory of generated workloads.
pub fn image_is_accepted(seed: u64)
    ensures { refusal (image_of_seed seed) workload_settings.mem_base workload_settings.mem_bytes
        ≡ None }
{}
