// Refusal 5: the nodes, their labels apart.
ghost use Rattle.std.specs.Prelude.{◌≡◌, true, ◌↔◌};
ghost use Rattle.tape.specs.File.{contents, info_at, element_of};
ghost use Rattle.admit.specs.Rules.{GoodNodes};
ghost use Rattle.admit.specs.Pieces.{GoodShape, GoodSpan, SoundNode, SoundNodes};
ghost use Rattle.tape.specs.Element as elements;

use crate::labels::good_labels;
use tape::{Cursor, Element, Flags, Kind, Node, TapeFile, long};

// Whether kind and flags are known, and Root is the node at index 0 and no other.
fn good_shape(n: Node, k: u32) -> bool
    ensures { (result ≡ true) ↔ GoodShape n k }
{
    n.kind.code <= Kind::ERROR
        && n.flags.bits <= Flags::ALL
        && (n.kind.code == Kind::ROOT) == (k == 0)
}

// Whether a span lies in the source, with both ends between characters.
fn good_span(source: &[u8], n: Node) -> bool
    ensures { (result ≡ true) ↔ GoodSpan source.now n }
{
    let start = long(n.start);
    let end = start + long(n.len);
    end <= source.len() && chars::is_boundary(source, start) && chars::is_boundary(source, end)
}

// Whether a node's entry stands for no element of its own.
fn is_plain(t: &TapeFile<'_>, k: u32) -> bool
    ensures { (result ≡ true) ↔ element_of (info_at (contents t.now) k) ≡ elements.other }
{
    Cursor::new(k).element(t).code == Element::OTHER
}

// What is asked of a node but for its label.
fn sound_node(t: &TapeFile<'_>, k: u32) -> bool
    ensures { (result ≡ true) ↔ SoundNode (contents t.now) k }
{
    let n = t.node_at(k);
    good_shape(n, k)
        && good_span(t.source(), n)
        && (!matches!(n.kind.code, Kind::CHAPTER | Kind::VERSE) || is_plain(t, k))
}

fn sound_nodes(t: &TapeFile<'_>) -> bool
    ensures { (result ≡ true) ↔ SoundNodes (contents t.now) }
{
    // A loop: `all` took three in a hundred longer here.
    for k in 0..t.sections.nodes {
        if !sound_node(t, k) {
            return false;
        }
    }
    true
}

// 5: every node is good.
pub fn good_nodes(t: &TapeFile<'_>) -> bool
    ensures { (result ≡ true) ↔ GoodNodes (contents t.now) }
{
    sound_nodes(t) && good_labels(t)
}
