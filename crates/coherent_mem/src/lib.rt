//! The hart caches under the directory as one memory, which its users see as flat bytes.
#![tactic(auto)]

mod coherent;
mod laws;

pub use coherent::Coherent;
pub use laws::atomics_store_once;
