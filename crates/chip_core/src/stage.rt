use portion_ctl::{Flushing, Open, Ready};

/// What a near-data core holds.
#[derive(Drop)]
pub enum Stage {
    /// No try is open, and none was taken back since.
    Ready(Ready),
    /// A try is open.
    Open(Open),
    /// The last try was taken back.
    Flushing(Flushing),
    /// While its value is being moved on.
    Moved,
}
