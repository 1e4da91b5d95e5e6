//! Code: the image file, a program for the processor with its tables, as bytes.
//!
//! An image is a magic, a header of little-endian words, the code, and the tables of frames, objects,
//! traps and, in the second version, calls. `write` makes the one image of its parts; `ImageView::read`
//! takes just the bytes that are an image, without memory, and names the first check that others fail.
#![tactic(auto)]

mod cut;
mod header;
mod laws;
mod parts;
mod refusal;
mod rows;
mod search;
mod tables;
mod view;
mod words;
mod writing;

pub use header::MAX_COUNT;
pub use laws::format_is_exact;
pub use parts::Parts;
pub use refusal::ImageRefusal;
pub use rows::{CallRow, FrameRow, ObjectRow, TrapRow};
pub use view::ImageView;
pub use writing::{OutOfMemory, write};
