// The caches of all holders over one memory.
mod backing;
mod holders;
mod misses;

ghost use Rattle.std.specs.Prelude.{◌≡◌, ◌<◌, ◌≤◌, ◌∷◌, true, false, length, replicate, slice_get, IfOk};
ghost use Rattle.conda_base.specs.Bytes.{handed_out};
ghost use Rattle.conda_base.specs.Lines.{IsLineSize};
ghost use Rattle.conda_base.specs.LineLists.{line_at};
ghost use Rattle.cpu_cache.specs.Contents.{no_contents};
ghost use Rattle.line_memory.specs.Access.{after_load, after_store};
ghost use Rattle.line_memory.specs.Backing.{IsInRange, shape_of, view_of};
ghost use Rattle.line_memory.specs.Memory.{IsMemory};
ghost use Rattle.line_memory.specs.Notes.{access_notes, all_noted};
ghost use Rattle.coherent_mem.specs.HandedOut.{IsCacheOf, IsDirectoryOf, copies_memory};
ghost use Rattle.coherent_mem.specs.Parts.{shown};
ghost use Rattle.coherent_mem.specs.Steps.{IsAccessTo, IsCoherent, StepsTo, unused, value_seen, view_stored};

use conda_base::{Line, Mesi, line_of, offset_of, read_value};
use cpu_cache::CpuCache;
use line_memory::LineMemory;
use mesi_directory::{Directory, Row};
use rv32_hart::Code;
use std::alloc::{AllocError, Global};
use std::marker::Model;
use traffic_trace::Traffic;

/// A write-back cache for each holder, over one memory and under one directory. After `new` it takes
/// no memory.
#[derive(Drop)]
pub struct Coherent {
    line_bytes: u32,
    sets: u32,
    ways: u32,
    memory: LineMemory,
    directory: Directory,
    caches: Vec<CpuCache>,
    // For each set of each holder whether a line of it may be in M.
    marks: Vec<bool>,
}

impl Model for Coherent {
    ghost use Rattle.coherent_mem.specs.Parts.{Parts, parts_from};
    ghost use Rattle.coherent_mem.specs.Marked.{AreMarkedParts};

    ghost Value = { Parts };

    ghost view = { λ c. parts_from c.sets c.ways c.memory c.directory c.caches.items };

    ghost invariant = { λ c. AreMarkedParts c.line_bytes c.marks.items
        (parts_from c.sets c.ways c.memory c.directory c.caches.items) };
}

impl Coherent {
    /// A memory with the bytes of an image, under an empty cache for each holder, of which there are
    /// at most 12, with 1 to 256 sets of 1 to 8 ways. All its memory is taken here.
    pub fn new(
        alloc: Global,
        line_bytes: u32,
        holders: u8,
        sets: u32,
        ways: u32,
        code: &Code,
    ) -> Result<Coherent, AllocError>
        requires memory { IsMemory line_bytes code.now.base (length code.now.bytes) }
        requires holders { holders ≤ 12 }
        requires some_sets { 0 < sets }
        requires few_sets { sets ≤ 256 }
        requires some_ways { 0 < ways }
        requires few_ways { ways ≤ 8 }
        ensures unused { IfOk result (λ c.
            shown c ≡ unused line_bytes holders sets ways code.now.base code.now.bytes) }
        ensures kept { IfOk result (λ c. IsCoherent (shown c)) }
    {
        let base = code.base();
        let bytes = code.bytes();
        let memory = LineMemory::new(alloc, line_bytes, base, bytes)?;
        let count = bytes.len() / line_bytes as usize;
        let directory = Directory::new(alloc, line_of(base, line_bytes), count as u32)?;
        let caches = empty_caches(alloc, line_bytes, holders, sets, ways)?;
        let marks = vec![in alloc; false; holders as usize * sets as usize]?;
        Ok(Coherent {
            line_bytes,
            sets,
            ways,
            memory,
            directory,
            caches,
            marks,
        })
    }

    /// The number of 1, 2 or 4 bytes that users see at an aligned address, by a load of a holder.
    pub fn load(&mut self, h: u8, addr: u32, size: u8, log: &mut Traffic) -> u32
        requires holder { h < (shown self.old).holders }
        requires access { IsAccessTo (shown self.old) addr size }
        ensures value { result ≡ value_seen (shown self.old) addr size }
        ensures steps { let b = shown self.old in
            StepsTo (after_load (shape_of b) b.tags h (line_at b.line_bytes addr)) b.view
            b (shown self.new) }
        ensures notes { let b = shown self.old in
            log.new ≡ all_noted log.old
            (access_notes (shape_of b) b.tags h (line_at b.line_bytes addr) false) }
        ensures kept { IsCoherent (shown self.new) }
    {
        match self.caches[h as usize].load_held(addr, size) {
            Some(value) => value,
            None => self.load_missed(h, addr, size, log),
        }
    }

    /// Stores the low 1, 2 or 4 bytes of a number at an aligned address, by a holder.
    pub fn store(&mut self, h: u8, addr: u32, size: u8, value: u32, log: &mut Traffic)
        requires holder { h < (shown self.old).holders }
        requires access { IsAccessTo (shown self.old) addr size }
        ensures steps { let b = shown self.old in
            StepsTo (after_store (shape_of b) b.tags h (line_at b.line_bytes addr))
            (view_stored b addr size value) b (shown self.new) }
        ensures notes { let b = shown self.old in
            log.new ≡ all_noted log.old
            (access_notes (shape_of b) b.tags h (line_at b.line_bytes addr) true) }
        ensures kept { IsCoherent (shown self.new) }
    {
        match self.caches[h as usize].store_owned(addr, size, value) {
            Some(Mesi::M) => {}
            Some(Mesi::E) => {
                let l = line_of(addr, self.line_bytes);
                self.marks[backing::mark_of(h, l, self.sets)] = true;
            }
            Some(Mesi::S) => self.store_missed(h, addr, size, value, log),
            None => self.store_missed(h, addr, size, value, log),
        }
    }

    /// The word that users see at an aligned address, by an atomic of a holder, which has the line
    /// in M from then on. The atomic's store comes after it.
    pub fn take(&mut self, h: u8, addr: u32, log: &mut Traffic) -> u32
        requires holder { h < (shown self.old).holders }
        requires access { IsAccessTo (shown self.old) addr 4 }
        ensures value { result ≡ value_seen (shown self.old) addr 4 }
        ensures steps { let b = shown self.old in
            StepsTo (after_store (shape_of b) b.tags h (line_at b.line_bytes addr)) b.view
            b (shown self.new) }
        ensures notes { let b = shown self.old in
            log.new ≡ all_noted log.old
            (access_notes (shape_of b) b.tags h (line_at b.line_bytes addr) true) }
        ensures kept { IsCoherent (shown self.new) }
    {
        let l = line_of(addr, self.line_bytes);
        let offset = offset_of(addr, self.line_bytes);
        self.isolate(h, l, log);
        let mut line = [0; 128];
        self.caches[h as usize].bytes(l, &mut line);
        self.caches[h as usize].own(l);
        self.directory.own(l, h);
        self.marks[backing::mark_of(h, l, self.sets)] = true;
        read_value(&line, offset, 4)
    }

    /// Hands out the bytes of a line that users see, and zeros after them.
    pub fn view(&self, l: Line, out: &mut [u8; 128])
        requires { IsInRange (shown self.now) l }
        ensures bytes { out.new ≡ handed_out (view_of (shown self.now) l) }
        ensures kept { IsCoherent (shown self.now) }
    {
        match self.directory.row(l) {
            Row::Nobody => self.memory.read(l, out),
            Row::Shared(_) => self.memory.read(l, out),
            Row::Owner(o) => self.caches[o as usize].bytes(l, out),
        }
    }

    /// The line at this place of a holder's set, with its state. None exactly where the set's list
    /// is not longer than `way`.
    pub fn at(&self, h: u8, set: u32, way: u32) -> Option<(Line, Mesi)>
        requires holder { h < (shown self.now).holders }
        requires set { set < (shown self.now).sets }
        ensures tag { result ≡ slice_get ((shown self.now).tags h set) way }
        ensures kept { IsCoherent (shown self.now) }
    {
        self.caches[h as usize].at(set, way)
    }

    /// A holder's cache.
    pub fn cache(&self, h: u8) -> &CpuCache
        requires { h < (shown self.now).holders }
        ensures cache { IsCacheOf (shown self.now) h result.now }
        ensures kept { IsCoherent (shown self.now) }
    {
        &self.caches[h as usize]
    }

    /// Memory's own bytes.
    pub fn plain(&self) -> &LineMemory
        ensures memory { result.now ≡ copies_memory (shown self.now) }
        ensures kept { IsCoherent (shown self.now) }
    {
        &self.memory
    }

    /// The directory, whose row of each line is the line's holders.
    pub fn directory(&self) -> &Directory
        ensures directory { IsDirectoryOf (shown self.now) result.now }
        ensures kept { IsCoherent (shown self.now) }
    {
        &self.directory
    }
}

// As many empty caches.
fn empty_caches(
    alloc: Global,
    line_bytes: u32,
    holders: u8,
    sets: u32,
    ways: u32,
) -> Result<Vec<CpuCache>, AllocError>
    requires size { IsLineSize line_bytes }
    requires some_sets { 0 < sets }
    requires few_sets { sets ≤ 256 }
    requires some_ways { 0 < ways }
    requires few_ways { ways ≤ 8 }
    ensures { IfOk result (λ caches.
        caches.items ≡ replicate holders (no_contents line_bytes sets ways)) }
{
    let mut caches = Vec::with_capacity(alloc, holders as usize)?;
    for _ in 0..holders {
        caches.push(CpuCache::new(alloc, line_bytes, sets, ways)?)?;
    }
    Ok(caches)
}
