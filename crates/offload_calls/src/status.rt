use rv32_hart::{Regs, Trap};

/// How a hart stands.
#[derive(Clone, Copy, Debug, PartialEq, Eq)]
pub enum HartStatus {
    Run,
    /// It ended by the call exit, with this value.
    Exit(u32),
    Trapped(Trap),
}

/// How a near-data core stands.
#[derive(Clone, Copy, Debug, Default, PartialEq, Eq)]
pub enum CoreStatus {
    #[default]
    Idle,
    Run,
    /// Its kernel ended by the call done, with this value.
    Done(u32),
    Trapped(Trap),
}

/// A hart, with its registers.
#[derive(Clone, Copy, Debug, PartialEq, Eq)]
pub struct Hart {
    pub regs: Regs,
    pub status: HartStatus,
}

/// A near-data core, with its registers.
#[derive(Clone, Copy, Debug, PartialEq, Eq)]
pub struct Core {
    pub regs: Regs,
    pub status: CoreStatus,
}
