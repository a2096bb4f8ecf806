// From bytes to a configuration.
ghost use Rattle.std.specs.Prelude.{◌≡◌, ◌⊎◌, ◌<◌, Some, None, Ok, Err, IfOk, IfErr, IsSome, MatchResult, length};
ghost use Rattle.std.specs.List.{list_any};
ghost use Rattle.std.specs.Str.{bytes_eq};
ghost use Rattle.serde_json.specs.View.{view, members_view};
ghost use Rattle.serde_json.specs.Find.{get};
ghost use Rattle.chip_config.specs.Keys.{keys, keys_from};
ghost use Rattle.chip_config.specs.Settings.{are_keys, configured, first_outside, first_without, memory_fault, number_or, numbers_of, settings, settings_at, settings_of, AreRanged};

use crate::config::Config;
use crate::fault::ConfigFault;
use crate::keys::{Entry, all_keys};
use serde_json::{Map, Value};
use std::alloc::Global;

fn is_name(table: &[Entry], name: &str) -> bool
    ensures { result ≡ list_any (λ entry. bytes_eq entry.name.now name.now) table.now }
{
    table.iter().any(|entry| entry.name == name)
}

// Whether each key of an object is one of the sixteen.
fn has_keys_alone(table: &[Entry], members: &Map<String, Value>) -> bool
    requires { keys_from 1 table.now ≡ keys }
    ensures { result ≡ are_keys (members_view members.now.entries) }
{
    for name in members.keys() {
        if !is_name(table, name.as_str()) {
            return false;
        }
    }
    true
}

// The number that stands for a key.
fn read_number(value: &Value, name: &str, default: u64) -> Option<u64>
    ensures { result ≡ number_or default (get name.now (view value.now)) }
{
    match value.get(name) {
        None => Some(default),
        Some(found) => found.as_u64(),
    }
}

// The numbers of the keys, in their order.
fn read_numbers(table: &[Entry], value: &Value) -> Result<[u64; 16], ConfigFault>
    requires { keys_from 1 table.now ≡ keys }
    ensures { MatchResult result
        (λ numbers. (first_without (view value.now) keys ≡ None)
        × (numbers ≡ numbers_of (view value.now)))
        (λ fault. first_without (view value.now) keys ≡ Some fault) }
{
    let mut numbers = [0u64; 16];
    for (index, entry) in table.iter().enumerate() {
        let Some(number) = read_number(value, entry.name, entry.default) else {
            return Err(ConfigFault::NotNumber(index as u8 + 1));
        };
        numbers[index] = number;
    }
    Ok(numbers)
}

// The first number that is out of its key's range.
fn find_outside(table: &[Entry], numbers: &[u64; 16]) -> Option<ConfigFault>
    requires { keys_from 1 table.now ≡ keys }
    ensures { result ≡ first_outside keys numbers.now }
{
    for (index, entry) in table.iter().enumerate() {
        if !entry.range.has(numbers[index]) {
            return Some(ConfigFault::OutOfRange(index as u8 + 1, numbers[index]));
        }
    }
    None
}

// The configuration of numbers that are in range, unless their memory isn't one.
fn configure(numbers: &[u64; 16]) -> Result<Config, ConfigFault>
    requires { AreRanged (settings_at numbers.now) }
    ensures { MatchResult result
        (λ config. (memory_fault (settings_at numbers.now) ≡ None)
        × (settings config ≡ settings_at numbers.now))
        (λ f. memory_fault (settings_at numbers.now) ≡ Some f) }
{
    let base = numbers[2] as u32;
    let bytes = numbers[3] as u32;
    let line = numbers[15] as u32;
    if u64::from(base) + u64::from(bytes) > 1 << 32 || base % line != 0 || bytes % line != 0 {
        return Err(ConfigFault::BadMemory(base, bytes));
    }
    Ok(Config {
        harts: numbers[0] as u32,
        cores: numbers[1] as u32,
        mem_base: base,
        mem_bytes: bytes,
        hart_sets: numbers[4] as u32,
        hart_ways: numbers[5] as u32,
        core_sets: numbers[6] as u32,
        core_ways: numbers[7] as u32,
        sig_bits: numbers[8] as u32,
        read_limit: numbers[9] as u32,
        write_limit: numbers[10] as u32,
        portion_max: numbers[11] as u32,
        out_max: numbers[12] as u32,
        retries: numbers[13] as u32,
        trace_last: numbers[14] as u32,
        line_bytes: line,
    })
}

// The configuration of a JSON value.
fn read_value(value: &Value) -> Result<Config, ConfigFault>
    ensures { MatchResult result
        (λ config. settings_of (view value.now) ≡ Ok (settings config))
        (λ fault. settings_of (view value.now) ≡ Err fault) }
{
    let table = all_keys();
    let Some(members) = value.as_object() else {
        return Err(ConfigFault::NotObject);
    };
    if !has_keys_alone(table, members) {
        return Err(ConfigFault::UnknownKey);
    }
    let numbers = read_numbers(table, value)?;
    match find_outside(table, &numbers) {
        Some(fault) => Err(fault),
        None => configure(&numbers),
    }
}

/// Reads a configuration from JSON text. A key that is missing has its default.
pub fn read(alloc: Global, bytes: &[u8]) -> Result<Config, ConfigFault>
    ensures ok { IfOk result (λ config. configured bytes.now ≡ Ok (settings config)) }
    ensures err { IfErr result (λ fault.
        (fault ≡ ConfigFault.OutOfMemory) ⊎ (configured bytes.now ≡ Err fault)) }
{
    match Value::from_slice(alloc, bytes) {
        Ok(value) => read_value(&value),
        Err(error) if error.is_memory() => Err(ConfigFault::OutOfMemory),
        Err(_) => Err(ConfigFault::NotJson),
    }
}
