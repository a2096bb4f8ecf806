// Files in memory.
ghost use Rattle.std.specs.Prelude.{◌≡◌, ◌↔◌, take, drop, [], ◌++◌, vec_len, slice_set, ◌<◌, ◌≤◌, ◌+◌, ◌-◌, ◌^◌, length, min, MatchOption, IsTrue, IfOk, None};
ghost use Rattle.conda_host.specs.Memory.{HasInput, input_at, input_bytes, find_file, files_seen, file_at, file_with, empty_file_for, room_of, IsFirst, are_distinct, names_held, files_made, stands_in};

use crate::output::Output;
use crate::slot::{Reading, Slot, UNUSED};
use crate::{Host, HostFailed, ROLES, Role};
use std::alloc::{AllocError, Global};

/// A host whose files lie in memory, and of which chosen calls fail. It takes memory only when it
/// is made.
#[derive(Drop)]
pub struct MemoryHost {
    inputs: Vec<(String, Vec<u8>)>,
    outputs: Vec<Output>,
    most: usize,
    failing: Vec<u64>,
    calls: u64,
    slots: [Slot; ROLES],
    ghost moves: { 1 ≤ most },
    ghost distinct: { IsTrue (are_distinct (names_held inputs.items (files_seen outputs.items))) },
}

fn find_input(inputs: &[(String, Vec<u8>)], name: &str) -> Option<usize>
    ensures { MatchOption result (input_at inputs.now name.now ≡ None)
        (λ i. HasInput inputs.now name.now i) }
{
    for (i, input) in inputs.iter().enumerate() {
        if input.0.as_str() == name {
            return Some(i);
        }
    }
    None
}

fn find_output(outputs: &[Output], name: &str) -> Option<usize>
    ensures { MatchOption result (find_file (files_seen outputs.now) name.now ≡ None)
        (λ j. (j < length outputs.now) × IsFirst (files_seen outputs.now) j name.now) }
{
    for (i, output) in outputs.iter().enumerate() {
        if output.name() == name {
            return Some(i);
        }
    }
    None
}

// The bytes of the input at a place, or none past the last.
fn bytes_of(inputs: &[(String, Vec<u8>)], i: usize) -> &[u8]
    ensures { result.now ≡ input_bytes inputs.now i }
{
    match inputs.get(i) {
        Some(input) => input.1.as_slice(),
        None => &[],
    }
}

// Creates the output at a place for a role.
fn create_output(outputs: &mut Vec<Output>, j: usize, role: Role)
    requires { j < vec_len outputs.old }
    ensures { files_seen outputs.new.items ≡ slice_set (files_seen outputs.old.items) j
        (empty_file_for role (file_at (files_seen outputs.old.items) j)) }
{
    outputs[j].create(role);
}

// Appends to the output at a place.
fn append_output(outputs: &mut Vec<Output>, j: usize, bytes: &[u8])
    requires place { j < vec_len outputs.old }
    requires room { length (file_at (files_seen outputs.old.items) j).bytes + length bytes.now
        ≤ (file_at (files_seen outputs.old.items) j).room }
    ensures { files_seen outputs.new.items ≡ slice_set (files_seen outputs.old.items) j
        (file_with bytes.now (file_at (files_seen outputs.old.items) j)) }
{
    outputs[j].append(bytes);
}

// How many of the bytes the output at a place takes.
fn taken(outputs: &[Output], j: usize, most: usize, len: usize) -> usize
    requires { j < length outputs.now }
    ensures value { result ≡ min (min len most) (room_of (file_at (files_seen outputs.now) j)) }
    ensures fits { length (file_at (files_seen outputs.now) j).bytes + result
        ≤ (file_at (files_seen outputs.now) j).room }
{
    len.min(most).min(outputs[j].free())
}

// Copies some of the bytes from a place on.
fn take_some(bytes: &[u8], at: usize, most: usize, buf: &mut [u8]) -> usize
    requires { 1 ≤ most }
    ensures count { result ≡ min (min (length (drop at bytes.now)) (length buf.old)) most }
    ensures bound { result ≤ length buf.old }
    ensures fits { at + result < 2 ^ 64 }
    ensures bytes { drop at bytes.now ≡ take result buf.new ++ drop (at + result) bytes.now }
    ensures ended { 0 < length buf.old → (result ≡ 0) ↔ (drop at bytes.now ≡ []) }
{
    if at >= bytes.len() {
        return 0;
    }
    let left = &bytes[at..];
    let n = left.len().min(buf.len()).min(most);
    buf[..n].copy_from_slice(&left[..n]);
    n
}

// Counts a call, and says whether it is one that is to fail.
fn count_call(calls: &mut u64, failing: &[u64]) -> bool
    ensures count { calls.new ≡ min (calls.old + 1) (2 ^ 64 - 1) }
    ensures fails { result ≡ stands_in failing.now (min (calls.old + 1) (2 ^ 64 - 1)) }
{
    *calls = calls.saturating_add(1);
    failing.contains(calls)
}

impl MemoryHost {
    ghost use Rattle.std.specs.Prelude.{◌||◌, is_some};
    ghost use Rattle.std.specs.Option.{option_copied};
    ghost use Rattle.conda_host.specs.Memory.{names_given};
    ghost use Rattle.conda_host.specs.MemoryHost.{memory_state, IsStart, rules_of, rules_made, is_input, was_created};

    /// A host with these inputs, and with so many bytes of room for each output. A call moves at
    /// most so many bytes. Calls are numbered from 1, and those in `failing` fail.
    pub fn new(
        alloc: Global,
        inputs: Vec<(String, Vec<u8>)>,
        outputs: Vec<String>,
        room: usize,
        most: usize,
        failing: Vec<u64>,
    ) -> Result<MemoryHost, AllocError>
        requires distinct { IsTrue (are_distinct (names_given inputs.items outputs.items)) }
        requires moves { 1 ≤ most }
        ensures start { IfOk result (λ host. IsStart (memory_state host) inputs.items) }
        ensures rules { IfOk result (λ host. rules_of host
            ≡ rules_made inputs.items outputs.items room most failing.items) }
    {
        let outputs = reserve(alloc, outputs, room)?;
        Ok(MemoryHost {
            inputs,
            outputs,
            most,
            failing,
            calls: 0,
            slots: [UNUSED; ROLES],
        })
    }

    /// The bytes of a file, which is an input or was created.
    pub fn file(&self, name: &str) -> Option<&[u8]>
        ensures bytes { option_copied result ≡ (memory_state self.now).file name.now }
        ensures found { is_some result ≡ (is_input self.now name.now
            || was_created self.now name.now) }
    {
        if let Some(j) = find_output(&self.outputs, name) {
            let output = &self.outputs[j];
            return if output.is_created() {
                Some(output.bytes())
            } else {
                None
            };
        }
        let i = find_input(&self.inputs, name)?;
        Some(self.inputs[i].1.as_slice())
    }
}

// Takes the room of each output.
fn reserve(alloc: Global, names: Vec<String>, room: usize) -> Result<Vec<Output>, AllocError>
    ensures { IfOk result (λ outputs. files_seen outputs.items ≡ files_made names.items room) }
{
    let mut outputs = Vec::new(alloc);
    for name in names {
        outputs.push(Output::new(alloc, name, room)?)?;
    }
    Ok(outputs)
}

impl Host for MemoryHost {
    ghost use Rattle.std.specs.Prelude.{◌&&◌, false, not, is_ok, OnOk, OnErr};
    ghost use Rattle.conda_host.specs.State.{IsReading, IsWriting, IsCreating, Opens, Reads, Creates, Writes, Rose, RoseForAll, is_opened, is_created};
    ghost use Rattle.conda_host.specs.MemoryHost.{memory_state, fails_next, is_input, is_output, has_room_for, read_count, write_count, Serves, TakesName, Moves};

    ghost state = { memory_state };

    fn open(&mut self, role: Role, name: &str) -> Result<(), HostFailed>
        ensures ok { OnOk result (Opens (memory_state self.old)
            (memory_state self.new) role name.now) }
        ensures err { OnErr result (is_opened (memory_state self.new) role ≡ false) }
        ensures cause { OnErr result (Rose (memory_state self.old)
            (memory_state self.new) role name.now) }
        ensures rest { IsReading (memory_state self.old) (memory_state self.new) role }
        ensures served { Serves self.old self.new role result }
        ensures when { is_ok result ≡ (not (fails_next self.old) && is_input self.old name.now) }
    {
        let at = role.index();
        let slot = self.slots[at];
        let fails = count_call(&mut self.calls, &self.failing);
        match find_input(&self.inputs, name) {
            Some(input) if !fails => {
                let reading = Some(Reading { input, at: 0 });
                self.slots[at] = Slot { reading, ..slot };
                Ok(())
            }
            _ => {
                let reading = None;
                self.slots[at] = Slot {
                    reading,
                    ..slot.failed()
                };
                Err(HostFailed)
            }
        }
    }

    fn read(&mut self, role: Role, buf: &mut [u8]) -> Result<usize, HostFailed>
        requires { IsTrue (is_opened (memory_state self.old) role) }
        ensures ok { IfOk result (λ n. Reads (memory_state self.old)
            (memory_state self.new) role buf.old buf.new n) }
        ensures err { OnErr result ((memory_state self.new).role role
            ≡ (memory_state self.old).role role) }
        ensures cause { OnErr result (RoseForAll (memory_state self.old)
            (memory_state self.new) role) }
        ensures rest { IsReading (memory_state self.old) (memory_state self.new) role }
        ensures served { Serves self.old self.new role result }
        ensures moves { Moves result (not (fails_next self.old))
            (read_count self.old role (length buf.old)) }
    {
        let at = role.index();
        let slot = self.slots[at];
        let fails = count_call(&mut self.calls, &self.failing);
        match slot.reading {
            Some(Reading { input, at: from }) if !fails => {
                let n = take_some(bytes_of(&self.inputs, input), from, self.most, buf);
                let reading = Some(Reading {
                    input,
                    at: from + n,
                });
                self.slots[at] = Slot { reading, ..slot };
                Ok(n)
            }
            _ => {
                self.slots[at] = slot.failed();
                Err(HostFailed)
            }
        }
    }

    fn create(&mut self, role: Role, name: &str) -> Result<(), HostFailed>
        ensures ok { OnOk result (Creates (memory_state self.new) role name.now) }
        ensures err { OnErr result (is_created (memory_state self.new) role ≡ false) }
        ensures cause { OnErr result (Rose (memory_state self.old)
            (memory_state self.new) role name.now) }
        ensures rest { IsCreating (memory_state self.old) (memory_state self.new) role name.now }
        ensures served { Serves self.old self.new role result }
        ensures takes { OnOk result (TakesName (memory_state self.new) role name.now) }
        ensures when { is_ok result ≡ (not (fails_next self.old) && is_output self.old name.now) }
    {
        let at = role.index();
        let slot = self.slots[at];
        let fails = count_call(&mut self.calls, &self.failing);
        match find_output(&self.outputs, name) {
            Some(j) if !fails => {
                create_output(&mut self.outputs, j, role);
                let output = Some(j);
                self.slots[at] = Slot { output, ..slot };
                Ok(())
            }
            _ => {
                let output = None;
                self.slots[at] = Slot {
                    output,
                    ..slot.failed()
                };
                Err(HostFailed)
            }
        }
    }

    fn write(&mut self, role: Role, bytes: &[u8]) -> Result<usize, HostFailed>
        requires { IsTrue (is_created (memory_state self.old) role) }
        ensures ok { IfOk result (λ n. Writes (memory_state self.old)
            (memory_state self.new) role bytes.now n) }
        ensures err { OnErr result ((memory_state self.new).role role
            ≡ (memory_state self.old).role role) }
        ensures err_files { OnErr result (IsReading (memory_state self.old)
            (memory_state self.new) role) }
        ensures cause { OnErr result (RoseForAll (memory_state self.old)
            (memory_state self.new) role) }
        ensures rest { IsWriting (memory_state self.old) (memory_state self.new) role }
        ensures served { Serves self.old self.new role result }
        ensures moves { Moves result (not (fails_next self.old)
            && has_room_for self.old role (length bytes.now))
            (write_count self.old role (length bytes.now)) }
    {
        let at = role.index();
        let slot = self.slots[at];
        let fails = count_call(&mut self.calls, &self.failing);
        if let Some(j) = slot.output {
            let n = taken(&self.outputs, j, self.most, bytes.len());
            if !fails && (n > 0 || bytes.is_empty()) {
                append_output(&mut self.outputs, j, &bytes[..n]);
                return Ok(n);
            }
        }
        self.slots[at] = slot.failed();
        Err(HostFailed)
    }
}
