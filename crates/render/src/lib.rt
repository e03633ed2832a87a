#![tactic(auto)]
// What a node is, what stands in it and what follows it: the rules that every form of the text shares.
mod children;
mod follow;
mod label;
mod note;
mod shape;

pub use children::{find, first_text, has_content, is_plain_text};
pub use follow::{followed, inline_at, inline_follows, next_solid, runs_on, solid_behind};
pub use label::{verse_label, word_part};
pub use note::{
    Align, book_code, book_rest, category_text, cell_align, leading_text, note_caller, remainder,
    trimmed,
};
pub use shape::{
    Shape, is_blank, is_category_marker, is_element, is_inline, is_row, is_top_level_block,
    trims_after, unknown_shape,
};
