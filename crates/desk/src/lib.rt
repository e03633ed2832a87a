#![tactic(auto)]
// The desk: how much of the text is written and which byte of it the buffer starts with, what is open, and which text it is.
ghost use Rattle.std.specs.Prelude.{◌≡◌};
ghost use Rattle.usx_state.specs.Mark.{new_marks};

mod group;
mod plain;
mod stroke;
mod text;

pub use stroke::Element;
use usx_state::Marks;
use window::Window;

// Which text is written: there is one, that of the Rust.
#[derive(Clone, Copy, PartialEq, Eq)]
pub enum Profile {
    Rust,
}

#[derive(Clone, Copy)]
pub struct Desk {
    pub window: Window,
    pub marks: Marks,
    pub profile: Profile,
}

impl Desk {
    // Nothing is written and nothing is open; the buffer starts with this byte of the text.
    pub fn new(from: usize, number: u32) -> Desk
        ensures window { result.window ≡ record { at = 0; from = from } }
        ensures marks { result.marks ≡ new_marks number }
        ensures profile { result.profile ≡ Profile.Rust }
    {
        Desk {
            window: Window { at: 0, from },
            marks: Marks::new(number),
            profile: Profile::Rust,
        }
    }
}
