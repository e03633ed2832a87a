#![tactic(auto)]
// The USX text of a tape file: admission, then walks that write it whole, or one that shows a window of it.
ghost use Rattle.std.specs.Prelude.{◌≡◌};
ghost use Rattle.events.specs.Text.{outcome};
ghost use Rattle.usx.specs.Answer.{outcome_of};
ghost use Rattle.usx.specs.Shown.{view, view_of};

use walk::{Asked, write_tape};

// Written with its length; refused by document 01's number; no room for a text of this length.
// Three outcomes, and the number that C reads: `outcome_of` and the calls of `told_texts` are over them.
#[derive(Clone, Copy)]
pub enum Answer {
    Written(usize),
    Refused(u8),
    NoRoom(usize),
}

// A window: so many bytes are given of a text of this whole length; or refused by document 01's number.
// Two numbers or a refusal, which C reads: `view_of`, `cuts::specs::Follow` and the calls of `told_texts` are over them.
#[derive(Clone, Copy)]
pub enum Shown {
    Given { bytes: usize, whole: usize },
    Refused(u8),
}

// Writes the USX text of a tape file at the front of a buffer, or says why not.
pub fn serialize(file: &[u8], out: &mut [u8]) -> Answer
    ensures { outcome_of result out.new ≡ outcome file.now out.old }
{
    match admit::admit(file) {
        Err(reason) => Answer::Refused(reason.number()),
        Ok(tape) => {
            let n = write_tape(&tape, Asked::Whole, out);
            if n <= out.len() {
                Answer::Written(n)
            } else {
                Answer::NoRoom(n)
            }
        }
    }
}

// Shows the bytes of a tape file's text from one on, as many as the buffer has room for, or says why not.
pub fn window(file: &[u8], from: usize, out: &mut [u8]) -> Shown
    ensures { view_of result out.new ≡ view file.now from out.old }
{
    match admit::admit(file) {
        Err(reason) => Shown::Refused(reason.number()),
        Ok(tape) => {
            let whole = write_tape(&tape, Asked::From(from), out);
            Shown::Given {
                bytes: whole.saturating_sub(from).min(out.len()),
                whole,
            }
        }
    }
}
