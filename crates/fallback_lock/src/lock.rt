// Rollback counts and the lock.
ghost use Rattle.std.specs.Prelude.{◌≡◌, ◌+◌, ◌<◌, ◌≤◌, ◌↔◌, IsTrue, length, None};
ghost use Rattle.fallback_lock.specs.Locks.{
  Counts,
  fresh_counts,
  backs_of,
  with_backs,
  with_locked,
  committed,
  IsAnothers,
};

use conda_base::Actor;
use std::marker::Model;

/// How a core's next try opens.
#[derive(Clone, Copy, Debug, PartialEq, Eq)]
pub enum Mode {
    /// Beside the events of others.
    Free,
    /// Under the lock, which holds all other harts and cores.
    Locked,
}

/// The rollbacks of 1 to 4 cores since the last commit or launch of each, and the core whose locked try is open.
#[derive(Drop)]
pub struct Lock {
    cores: u8,
    retries: u32,
    backs: [u32; 4],
    locked: Option<u8>,
}

impl Model for Lock {
    ghost use Rattle.std.specs.Prelude.{◌≤◌, take};
    ghost use Rattle.fallback_lock.specs.Locks.{Counts};

    ghost Value = { Counts };

    ghost view = { λ l.
        record { backs = take l.cores l.backs; retries = l.retries; locked = l.locked } };

    ghost invariant = { λ l. l.cores ≤ 4 };
}

impl Lock {
    /// No rollback stands, and nobody is locked. A core's try is locked after `retries` rollbacks in a row.
    pub fn new(cores: u8, retries: u32) -> Lock
        requires some { 0 < cores }
        requires few { cores ≤ 4 }
        requires retries { retries ≤ 255 }
        ensures { result ≡ fresh_counts cores retries }
    {
        Lock {
            cores,
            retries,
            backs: [0; 4],
            locked: None,
        }
    }

    /// How the core's next try opens: locked exactly where `retries` rollbacks stand.
    pub fn next(&self, core: u8) -> Mode
        requires { core < length self.now.backs }
        ensures { (result ≡ Mode.Locked) ↔ (backs_of self.now core ≡ self.now.retries) }
    {
        if self.backs[core as usize] == self.retries {
            Mode::Locked
        } else {
            Mode::Free
        }
    }

    /// Whether another actor's locked try is open.
    pub fn held(&self, a: Actor) -> bool
        ensures { IsTrue result ↔ IsAnothers self.now.locked a }
    {
        match (self.locked, a) {
            (Some(owner), Actor::Core(core)) => owner != core,
            (Some(_), Actor::Hart(_)) => true,
            (None, _) => false,
        }
    }

    /// The core opens a locked try.
    pub fn took(&mut self, core: u8)
        requires core { core < length self.old.backs }
        requires free { self.old.locked ≡ None }
        ensures { self.new ≡ with_locked self.old core }
    {
        self.locked = Some(core);
    }

    /// The core commits: its rollbacks count anew, and the lock is free where it was this core's.
    pub fn gave(&mut self, core: u8)
        requires { core < length self.old.backs }
        ensures { self.new ≡ committed self.old core }
    {
        self.fresh(core);
        if self.locked == Some(core) {
            self.locked = None;
        }
    }

    /// The core rolls back.
    pub fn backed(&mut self, core: u8)
        requires core { core < length self.old.backs }
        requires below { backs_of self.old core < self.old.retries }
        ensures { self.new ≡ with_backs self.old core (backs_of self.old core + 1) }
    {
        self.backs[core as usize] += 1;
    }

    /// The core is launched: its rollbacks count anew.
    pub fn fresh(&mut self, core: u8)
        requires { core < length self.old.backs }
        ensures { self.new ≡ with_backs self.old core 0 }
    {
        self.backs[core as usize] = 0;
    }
}
