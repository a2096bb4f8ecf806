//! What a command answers: statuses with their texts, what each answer says and leaves, and the files
//! that commands read and make.
#![tactic(auto)]

mod limits;
mod loading;
mod status;
mod text;
mod writing;

pub use limits::{CONFIG_LIMIT, IMAGE_LIMIT, SOURCE_LIMIT};
pub use loading::{image_in, load_image, read_config, read_file};
pub use status::Status;
pub use text::status_text;
pub use writing::write_file;
