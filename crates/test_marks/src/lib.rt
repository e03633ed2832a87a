#![tactic(auto)]
// Buffers of marks: how many bytes a call left alone is told by counting the marks behind it.
ghost use Rattle.std.specs.Prelude.{◌≡◌, length, replicate};
ghost use Rattle.test_marks.specs.Left.{marks_in};

// A byte that no UTF-8 text has.
const MARK: u8 = 255;

// Marks in all of a buffer.
pub fn fill(buffer: &mut [u8])
    ensures { buffer.new ≡ replicate (length buffer.old) 255 }
{
    buffer.fill(MARK);
}

// How many bytes are marks.
#[tactic(auto, using(crate::proofs::Marked::marks_counted))]
pub fn unchanged(buffer: &[u8]) -> usize
    ensures { result ≡ marks_in buffer.now }
{
    buffer.iter().filter(|x| **x == MARK).count()
}
