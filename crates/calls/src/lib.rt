#![tactic(auto)]
// The serializer, and the checker on what it wrote: what one writes the other accepts, where the file keeps the proviso.
ghost use Rattle.std.specs.Prelude.{◌≡◌};
ghost use Rattle.events.specs.Text.{outcome};
ghost use Rattle.usx.specs.Answer.{outcome_of};
ghost use Rattle.calls.specs.Called.{answer_in, Checked};

use checker::Verdict;
use usx::Answer;

// Written with its length, and the checker's answer to the text; refused by document 01's number; no room for a text of this length.
// The three outcomes of `usx::Answer`, one with a verdict: `answer_in` and `Checked` are over them.
#[derive(Clone, Copy)]
pub enum Called {
    Written { length: usize, verdict: Verdict },
    Refused(u8),
    NoRoom(usize),
}

// Writes the USX text of a tape file at the front of a buffer, and checks it there.
pub fn serialize_and_check(file: &[u8], out: &mut [u8]) -> Called
    ensures text { outcome_of (answer_in result) out.new ≡ outcome file.now out.old }
    ensures verdict { Checked file.now result }
{
    match usx::serialize(file, out) {
        Answer::Written(n) => Called::Written {
            length: n,
            verdict: checker::check(parts::part(out, 0, n)),
        },
        Answer::Refused(n) => Called::Refused(n),
        Answer::NoRoom(n) => Called::NoRoom(n),
    }
}
