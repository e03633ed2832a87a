#![tactic(auto)]
// What is told of the text of a tape and of a window of it: document 01's number, and lengths at fixed places of a lent slice, as far as it reaches.
ghost use Rattle.events.specs.Text.{outcome};
ghost use Rattle.usx.specs.Shown.{view};
ghost use Rattle.told_texts.specs.Told.{Wrote, Showed};

use told::tell;
use usx::{Answer, Shown};

// Document 01's number where the buffer is shorter than the text.
const NO_ROOM: u32 = 8;

// The USX text of a tape file at the front of a buffer; number 0 becomes the length that the answer gives.
pub fn serialize(file: &[u8], out: &mut [u8], numbers: &mut [u64]) -> u32
    ensures { Wrote (outcome file.now out.old) numbers.old result numbers.new out.new }
{
    match usx::serialize(file, out) {
        Answer::Written(n) => {
            tell(numbers, 0, n);
            0
        }
        Answer::Refused(n) => {
            tell(numbers, 0, 0);
            u32::from(n)
        }
        Answer::NoRoom(n) => {
            tell(numbers, 0, n);
            NO_ROOM
        }
    }
}

// The bytes of that text from one on; number 0 becomes how many are shown and 1 how long the whole text is.
pub fn window(file: &[u8], from: usize, out: &mut [u8], numbers: &mut [u64]) -> u32
    ensures { Showed (view file.now from out.old) numbers.old result numbers.new out.new }
{
    match usx::window(file, from, out) {
        Shown::Given { bytes, whole } => {
            tell(numbers, 0, bytes);
            tell(numbers, 1, whole);
            0
        }
        Shown::Refused(n) => {
            tell(numbers, 0, 0);
            tell(numbers, 1, 0);
            u32::from(n)
        }
    }
}
