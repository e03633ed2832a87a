#![tactic(auto)]
// For C, by the names that C knows: a tape's text, a window of it, the check of a finished text, a tape's names, and the steps of writing a tape. A slice passes as pointer and length.
mod text;
mod writing;

pub use text::{andelura_check, andelura_find_names, andelura_serialize, andelura_window};
pub use writing::{
    andelura_tape_attribute, andelura_tape_chapter, andelura_tape_close, andelura_tape_entry,
    andelura_tape_error, andelura_tape_finish, andelura_tape_leaf, andelura_tape_open,
    andelura_tape_source, andelura_tape_start, andelura_tape_text, andelura_tape_verse,
};
