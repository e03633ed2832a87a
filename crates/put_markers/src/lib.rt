#![tactic(auto)]
// Markers as events: what opens a marker, what closes it, and leaves.
mod close;
mod leaf;
mod open;

pub use close::close_marker;
pub use leaf::write_leaf;
pub use open::{is_flat, open_marker, put_unclosed};
