// Texts whose body is written as it stands, told by their edges.
ghost use Rattle.std.specs.Prelude.{◌≡◌, true, ◌&&◌, ◌-◌, ◌≤◌, length, take};
ghost use Rattle.window.specs.Page.{page_of, paint};
ghost use Rattle.put_body.specs.Easy.{edged};
ghost use Rattle.put_body.specs.Frame.{white_front_of, white_back_of, frame_of, framed_text_of, Framed};

use chars::is_ascii_white;
use parts::byte_at;
use texts::Normalized;
use window::Window;

// How many white bytes a text of so many bytes begins with, up to two.
pub fn white_front(s: &[u8], size: usize) -> usize
    ensures value { result ≡ white_front_of s.now size }
    ensures upper_bound { result ≤ size }
{
    if size < 2 || !is_ascii_white(byte_at(s, 0)) {
        0
    } else if !is_ascii_white(byte_at(s, 1)) {
        1
    } else {
        2
    }
}

// How many it ends with, up to two, behind its first bytes.
pub fn white_back(s: &[u8], front: usize, size: usize) -> usize
    ensures value { result ≡ white_back_of s.now front size }
    ensures upper_bound { result ≤ size - front }
{
    if size <= front || !is_ascii_white(byte_at(s, size - 1)) {
        0
    } else if size - front < 2 || !is_ascii_white(byte_at(s, size - 2)) {
        1
    } else {
        2
    }
}

// Whether a text of so many bytes is told by its frame, whose body starts here and is so long.
pub fn is_framed(s: &[u8], size: usize, front: usize, len: usize) -> bool
    ensures { front ≡ (frame_of s.now size).front → len ≡ (frame_of s.now size).len → result ≡ true → size ≤ length s.now → Framed s.now size (frame_of s.now size) }
{
    if len == 0 {
        size == 1 && byte_at(s, 0) == b' '
    } else {
        crate::is_tight(parts::from(s, front), len)
    }
}

// The edges of a text that a frame stands for, by whether what stands before it and behind it keeps a space.
pub fn framed_text(front: usize, len: usize, ends: bool, before: bool, behind: bool) -> Normalized
    ensures { result ≡ framed_text_of (record { front = front; len = len; ends = ends }) before behind }
{
    if len == 0 {
        let lead = before && behind;
        Normalized {
            lead,
            trail: false,
            shows: lead,
        }
    } else {
        Normalized {
            lead: 0 < front && before,
            trail: ends && behind,
            shows: true,
        }
    }
}

// The first bytes of a text, a body that is written as it stands, with its lead and trail.
pub fn put_framed(w: &mut Window, out: &mut [u8], s: &[u8], len: usize, n: Normalized)
    ensures { page_of w.new out.new ≡ paint (page_of w.old out.old) (edged (take len s.now) n) }
{
    crate::put_space(w, out, n.lead);
    w.put_front(out, s, len);
    crate::put_space(w, out, n.trail);
}
