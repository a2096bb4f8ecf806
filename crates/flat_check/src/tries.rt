// The open tries of the cores.
ghost use Rattle.std.specs.Prelude.{ℕ, ◌≡◌, ◌%◌, ◌^◌, ◌<◌, ◌≤◌, length, replicate, IfOk, slice_set, None, Option};
ghost use Rattle.offload_calls.specs.State.{Setup};
ghost use Rattle.rv32_hart.specs.Code.{CodeView};
ghost use Rattle.flat_check.specs.Tries.{FitsTries, ShowsTries, counted, opened, try_parts};
ghost use Rattle.flat_check.specs.Walks.{Watched, has_acts};

use crate::marks::Marks;
use rv32_hart::Code;
use std::alloc::{AllocError, Global};

/// Of each core: how many acts its open try has, if one is open; and marks on what others stored since it was opened.
/// A number of acts stands still at 2^32 - 1, which no end of a try names.
#[derive(Drop)]
pub struct Tries {
    pub acts: Vec<Option<u32>>,
    pub marks: Vec<Marks>,
}

impl Tries {
    /// No open tries. All memory is taken here.
    pub fn new(alloc: Global, code: &Code, cores: u32) -> Result<Tries, AllocError>
        requires even { code.now.base % 32 ≡ 0 }
        requires room { length code.now.bytes < 2 ^ 32 }
        ensures acts { IfOk result (λ tries. tries.acts.items ≡ replicate cores None) }
        ensures fits { IfOk result (λ tries. FitsTries code.now cores (try_parts tries)) }
    {
        let bytes = code.bytes().len() as u32;
        let acts = vec![in alloc; None; cores as usize]?;
        let mut marks = Vec::with_capacity(alloc, cores as usize)?;
        for j in 0..cores {
            marks.push(Marks::new(alloc, bytes)?)?;
        }
        Ok(Tries { acts, marks })
    }

    /// Core j opens a try. This takes no time in the size of memory.
    pub fn open(&mut self, j: u8)
        requires acts { j < length self.old.acts.items }
        requires marks { j < length self.old.marks.items }
        ensures opens { (s : Setup) (tries : ℕ → Option Watched)
            → ShowsTries s (try_parts self.old) tries
            → ShowsTries s (try_parts self.new) (opened tries j) }
        ensures fits { (code : CodeView) (cores : ℕ) → FitsTries code cores (try_parts self.old)
            → FitsTries code cores (try_parts self.new) }
    {
        self.acts[j as usize] = Some(0);
        let own = &mut self.marks[j as usize];
        own.clear();
    }

    /// Core j's try is over.
    pub fn close(&mut self, j: u8)
        requires { j < length self.old.acts.items }
        ensures acts { self.new.acts.items ≡ slice_set self.old.acts.items j None }
        ensures marks { self.new.marks ≡ self.old.marks }
    {
        self.acts[j as usize] = None;
    }

    /// Core j's open try has one act more.
    pub fn count(&mut self, j: u8)
        requires { j < length self.old.acts.items }
        ensures counts { (s : Setup) (tries : ℕ → Option Watched)
            → ShowsTries s (try_parts self.old) tries
            → ShowsTries s (try_parts self.new) (counted tries j) }
        ensures fits { (code : CodeView) (cores : ℕ) → FitsTries code cores (try_parts self.old)
            → FitsTries code cores (try_parts self.new) }
    {
        if let Some(acts) = self.acts[j as usize] {
            self.acts[j as usize] = Some(acts.saturating_add(1));
        }
    }

    /// Whether core j's open try has n acts.
    pub fn has_acts(&self, j: u8, n: u32) -> bool
        requires there { j < length self.now.acts.items }
        requires few { n ≤ 65536 }
        ensures { (s : Setup) (tries : ℕ → Option Watched) → j < s.cores
            → ShowsTries s (try_parts self.now) tries → result ≡ has_acts (tries j) n }
    {
        match self.acts[j as usize] {
            Some(acts) => acts == n,
            None => false,
        }
    }
}
