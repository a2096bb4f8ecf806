//! Generated workloads: the configuration, the image and the events that a seed makes.
#![tactic(auto)]

mod draws;
mod image;
mod settings;

pub use draws::Draws;
pub use image::{Workload, generate};
pub use settings::{config, image_is_accepted};
