//! An independent checker of a finished run: it executes the written order on one flat memory.
#![tactic(auto)]

mod acts;
mod checker;
mod flat;
mod judging;
mod laws;
mod lines;
mod marks;
mod portions;
mod refusal;
mod tries;
mod walker;

pub use checker::Checker;
pub use laws::{
    accepted_texts_are_orders, checkers_show_flat_texts, fine_orders_are_sound,
    order_texts_are_accepted, overwrites_are_lowest, runs_are_accepted, sound_orders_are_fine,
};
pub use refusal::{OrderFault, Refusal};
