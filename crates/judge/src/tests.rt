// Refusal 5: what is asked of a node that a step adds.
ghost use Rattle.std.specs.Prelude.{◌≡◌, ◌<◌, length};
ghost use Rattle.tape.specs.File.{records_of, entry_of, element_of, base_len};
ghost use Rattle.layout.specs.Layout.{Fits, draft_of};
ghost use Rattle.judge.specs.Tests.{info_of, good_span, good_label, good_marker, good_here};

use layout::Writer;
use tape::{Element, Entry, Flags, Kind, Node, long, short};
use words::Set;

// Whether flags are known, and a span lies in the source with both ends between characters.
#[tactic(auto, unfolding(crate::specs::Tests::good_span))]
fn good_span(source: &[u8], n: Node) -> bool
    ensures { result ≡ good_span source.now n }
{
    let start = long(n.start);
    let end = start + long(n.len);
    n.flags.bits <= Flags::ALL
        && end <= source.len()
        && chars::is_boundary(source, start)
        && chars::is_boundary(source, end)
}

// Whether a label that is cut out of a text's marker name is cut between characters.
#[tactic(auto, unfolding(crate::specs::Tests::good_label))]
fn good_label(text: &[u8], base: usize) -> bool
    ensures { result ≡ good_label text.now base }
{
    let name = tape::name_in(text);
    name.len() <= base
        || chars::is_boundary(name, base)
        || words::nth_word(text, Set::Unicode, 1).len != 0
}

// What so many entries say of a marker.
fn info(entries: &[u8], count: usize, marker: u16) -> Option<Entry>
    ensures { result ≡ info_of (records_of entry_of 8 count entries.now) marker }
{
    let m = short(marker);
    if m < count {
        Some(Entry::of(parts::from(entries, 8 * m)))
    } else {
        None
    }
}

// The element of a marker; other where it is unknown.
fn element_of(info: Option<Entry>) -> u8
    ensures { result ≡ element_of info }
{
    match info {
        Some(e) => e.element.code,
        None => Element::OTHER,
    }
}

// How long the name of a marker is; unknown counts 0.
fn base_of(info: Option<Entry>) -> usize
    ensures { result ≡ base_len info }
{
    match info {
        Some(e) => short(e.len),
        None => 0,
    }
}

// Whether a Chapter or Verse stands for no element, and a Verse's label is good.
#[tactic(auto, unfolding(crate::specs::Tests::good_marker))]
fn good_marker(source: &[u8], n: Node, known: Option<Entry>) -> bool
    ensures { result ≡ good_marker source.now n known }
{
    let is_plain = element_of(known) == Element::OTHER;
    match n.kind.code {
        Kind::CHAPTER => is_plain,
        Kind::VERSE => {
            let text = parts::part(source, long(n.start), long(n.len));
            is_plain && good_label(text, base_of(known))
        }
        _ => true,
    }
}

// What is asked of a node behind Root.
pub fn good_node(w: Writer, buf: &[u8], n: Node) -> bool
    requires { Fits w (length buf.now) }
    ensures { result ≡ good_here (draft_of w buf.now).source (draft_of w buf.now).entries n }
{
    let source = parts::part(buf, 52, w.source);
    if !good_span(source, n) {
        return false;
    }
    let at = buf.len() - (8 * w.entries + w.names);
    let known = info(parts::part(buf, at, 8 * w.entries), w.entries, n.marker);
    good_marker(source, n, known)
}
