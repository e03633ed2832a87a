#![tactic(auto)]
// Normalized text, whole or broken at `//`.
ghost use Rattle.std.specs.Prelude.{◌≡◌, Bool, true, [], ℕ, ◌<◌, length, take};
ghost use Rattle.parts.specs.Bytes.{Bytes};
ghost use Rattle.texts.specs.Text.{segments};
ghost use Rattle.put_body.specs.Easy.{easy, inner_of};
ghost use Rattle.put_body.specs.Frame.{Framed};
ghost use Rattle.tags.specs.Items.{text, empty};
ghost use Rattle.events.specs.Event.{item};
ghost use Rattle.events.specs.Walk.{unbroken, segmented, broken};
ghost use Rattle.events.specs.Emit.{emit, emit_all};
ghost use Rattle.desk.specs.Desk.{desk_of};
ghost use Rattle.put_texts.specs.Broken.{segment, breaks_from};

use desk::{Desk, Element};
use texts::Normalized;

// A text where it shows, whose body is written as it stands.
fn put_easy(body: &[u8], n: Normalized, desk: &mut Desk, out: &mut [u8])
    ensures { (s : Bytes) → body.now ≡ inner_of s → easy body.now ≡ true → (source : Bytes) → desk_of source desk.new out.new ≡ emit_all (desk_of source desk.old out.old) (unbroken s n) }
{
    if n.shows {
        desk.text_body(out, body, body.len(), n)
    }
}

// A text where it shows, word by word.
#[tactic(auto, using(crate::proofs::Written::unbroken_shows, crate::proofs::Written::unbroken_hidden))]
fn put_worded(s: &[u8], n: Normalized, desk: &mut Desk, out: &mut [u8])
    ensures { (source : Bytes) → desk_of source desk.new out.new ≡ emit_all (desk_of source desk.old out.old) (unbroken s.now n) }
{
    if n.shows {
        desk.text_words(out, s, n)
    }
}

// A text where it shows, whose body starts here and is so long.
pub fn put_framed(
    tail: &[u8],
    front: usize,
    len: usize,
    n: Normalized,
    desk: &mut Desk,
    out: &mut [u8],
)
    ensures { (size : ℕ) (ends : Bool) → Framed tail.now size (record { front = front; len = len; ends = ends }) → (source : Bytes) → desk_of source desk.new out.new ≡ emit_all (desk_of source desk.old out.old) (broken (take size tail.now) n) }
{
    if n.shows {
        desk.text_body(out, parts::from(tail, front), len, n)
    }
}

// A text where it shows.
pub fn put_unbroken(s: &[u8], n: Normalized, desk: &mut Desk, out: &mut [u8])
    ensures { (source : Bytes) → desk_of source desk.new out.new ≡ emit_all (desk_of source desk.old out.old) (unbroken s.now n) }
{
    let body = put_body::inner(s);
    if put_body::is_easy(body) {
        put_easy(body, n, desk, out)
    } else {
        put_worded(s, n, desk, out)
    }
}

// One segment of a text.
#[tactic(auto, using(crate::proofs::Written::segment_put))]
fn put_segment(s: &[u8], desk: &mut Desk, out: &mut [u8])
    ensures { (source : Bytes) → desk_of source desk.new out.new ≡ emit (desk_of source desk.old out.old) (item (text (segment s.now))) }
{
    desk.text_segment(out, s)
}

// A break between two segments.
#[tactic(auto, using(crate::proofs::Written::break_put))]
fn put_break(desk: &mut Desk, out: &mut [u8])
    ensures { (source : Bytes) → desk_of source desk.new out.new ≡ emit (desk_of source desk.old out.old) (item (empty 15 [])) }
{
    desk.open_tag(out, Element::Optbreak);
    desk.shut_tag(out)
}

// The `//` at a place, and the segment behind it; the place of the next `//`.
fn next_segment(s: &[u8], place: usize, desk: &mut Desk, out: &mut [u8]) -> usize
    requires { place < length s.now }
    ensures place_after { (source : Bytes) → emit_all (desk_of source desk.new out.new) (breaks_from s.now result) ≡ emit_all (desk_of source desk.old out.old) (breaks_from s.now place) }
    ensures place_lt_place { place < result }
{
    let start = place + 2;
    let rest = parts::from(s, start);
    let n = parts::find_pair(rest, b'/');
    put_break(desk, out);
    put_segment(parts::part(rest, 0, n), desk, out);
    start + n
}

// The segments of a text, a break between two.
fn put_segments(s: &[u8], desk: &mut Desk, out: &mut [u8])
    ensures { (source : Bytes) → desk_of source desk.new out.new ≡ emit_all (desk_of source desk.old out.old) (segmented (segments s.now)) }
{
    let mut place = parts::find_pair(s, b'/');
    put_segment(parts::part(s, 0, place), desk, out);
    // A `while`: each turn passes a segment.
    while place < s.len() {
        place = next_segment(s, place, desk, out);
    }
}

// A text that is not easy, broken at each `//`, or whole.
fn put_hard(s: &[u8], n: Normalized, desk: &mut Desk, out: &mut [u8])
    ensures { (source : Bytes) → desk_of source desk.new out.new ≡ emit_all (desk_of source desk.old out.old) (broken s.now n) }
{
    if texts::has_break(s) {
        put_segments(s, desk, out)
    } else {
        put_worded(s, n, desk, out)
    }
}

// A text broken at each `//`, or whole.
// As `put_unbroken` up to the last branch: a closure for that one call is longer than the two bodies.
pub fn put_broken(s: &[u8], n: Normalized, desk: &mut Desk, out: &mut [u8])
    ensures { (source : Bytes) → desk_of source desk.new out.new ≡ emit_all (desk_of source desk.old out.old) (broken s.now n) }
{
    let body = put_body::inner(s);
    if put_body::is_easy(body) {
        put_easy(body, n, desk, out)
    } else {
        put_hard(s, n, desk, out)
    }
}
