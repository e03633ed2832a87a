#![tactic(auto)]
// The refusals of steps: 16 first, then the lowest of document 01's that the step would cause.
mod tests;

ghost use Rattle.std.specs.Prelude.{◌≡◌, true, ◌+◌, ◌^◌, ◌≤◌, ◌<◌, length, get_or};
ghost use Rattle.admit.specs.Decide.{all_below, good_byte as is_good};
ghost use Rattle.layout.specs.Layout.{file_len};
ghost use Rattle.judge.specs.Phase.{limited, phase_of, start_number_of, finish_number_of};
ghost use Rattle.judge.specs.Numbers.{node_number_of, piece_number_of, good_entry_for, entry_number_of};

use layout::Writer;
use tape::{Category, Element, Entry, Node, long, short};
use tests::good_node;

// The most that a tape holds: nodes with Root, entries, name bytes, source bytes; and the most containers that are open at once.
const MOST_NODES: usize = 262144;

const MOST_ENTRIES: usize = 1024;

pub const MOST_NAMES: usize = 16384;

pub const MOST_SOURCE: usize = 4194304;

pub const MOST_OPEN: usize = 64;

// What a step answers: 0, or the number of its refusal. Numbers and no enum: C takes these very numbers, and contracts speak of them.
pub const DONE: u8 = 0;

const LIMITS: u8 = 2;

const SOURCE: u8 = 3;

const NAMES: u8 = 4;

const NODE: u8 = 5;

pub const DEPTH: u8 = 6;

pub const NESTING: u8 = 7;

pub const ROOM: u8 = 8;

pub const ORDER: u8 = 16;

// Whether the counts of a state are within the limits.
#[tactic(auto, unfolding(crate::specs::Phase::limited))]
pub fn is_limited(w: Writer) -> bool
    ensures { result ≡ limited w }
{
    w.nodes < MOST_NODES
        && w.entries <= MOST_ENTRIES
        && w.names <= MOST_NAMES
        && w.source <= MOST_SOURCE
        && w.inner <= w.nodes
        && w.depth <= MOST_OPEN
        && w.phase <= Writer::FINISHED
}

// How long the file of a state is.
pub fn size(w: Writer) -> usize
    requires { limited w ≡ true }
    ensures value { result ≡ file_len w }
    ensures upper_bound { result < 2 ^ 32 }
{
    52 + w.source + (16 * w.nodes + 8 * w.entries + w.names)
}

// The phase of a state; one that does not fit the buffer counts as before start.
#[tactic(auto, unfolding(crate::specs::Phase::phase_of, crate::specs::Phase::fits))]
pub fn phase(w: Writer, n: usize) -> u8
    ensures { result ≡ phase_of w n }
{
    if is_limited(w) && size(w) <= n {
        w.phase
    } else {
        Writer::BEFORE_START
    }
}

// The number of a start.
#[tactic(auto, unfolding(crate::specs::Phase::start_number_of))]
pub fn start_number(w: Writer, n: usize) -> u8
    ensures { result ≡ start_number_of w n }
{
    if phase(w, n) != Writer::BEFORE_START {
        ORDER
    } else if n < 52 {
        ROOM
    } else {
        DONE
    }
}

// The number of a finish.
#[tactic(auto, unfolding(crate::specs::Phase::finish_number_of))]
pub fn finish_number(w: Writer, n: usize) -> u8
    ensures { result ≡ finish_number_of w n }
{
    if phase(w, n) != Writer::AT_WORK {
        ORDER
    } else if w.depth != 0 || w.inner != 0 {
        NESTING
    } else {
        DONE
    }
}

// The number of a step that adds a node; `nest` is 0, or 6 or 7 where the step would break the nesting.
#[tactic(auto, unfolding(crate::specs::Numbers::node_number_of))]
pub fn node_number(w: Writer, buf: &[u8], n: Node, nest: u8) -> u8
    ensures { result ≡ node_number_of w buf.now n nest }
{
    if phase(w, buf.len()) != Writer::AT_WORK {
        ORDER
    } else if w.nodes + 1 >= MOST_NODES {
        LIMITS
    } else if !good_node(w, buf, n) {
        NODE
    } else if nest != DONE {
        nest
    } else if size(w) + 16 > buf.len() {
        ROOM
    } else {
        DONE
    }
}

// The number of a step that adds a source piece to a buffer of so many bytes.
#[tactic(auto, unfolding(crate::specs::Numbers::piece_number_of))]
pub fn piece_number(w: Writer, n: usize, piece: &[u8]) -> u8
    ensures { result ≡ piece_number_of w n piece.now }
{
    if phase(w, n) != Writer::AT_WORK {
        ORDER
    } else if piece.len() > MOST_SOURCE - w.source {
        LIMITS
    } else if !chars::is_utf8(piece) {
        SOURCE
    } else if piece.len() > n - size(w) {
        ROOM
    } else {
        DONE
    }
}

// Whether every byte can stand in a name: 21..7E.
fn good_bytes(s: &[u8]) -> bool
    ensures { result ≡ all_below (λ i. is_good (get_or s.now i 0)) (length s.now) }
{
    // With no early exit, so that the bytes of a block are tested at once.
    !parts::any_byte(s, |x| !x.is_ascii_graphic())
}

// Whether name bytes are good, and an entry behind so many names.
#[tactic(auto, unfolding(crate::specs::Numbers::good_entry_for))]
fn good_entry(names: usize, s: &[u8], e: Entry) -> bool
    requires { names + length s.now ≤ 16384 }
    ensures { result ≡ good_entry_for names s.now e }
{
    good_bytes(s)
        && long(e.start) + short(e.len) <= names + s.len()
        && e.category.code <= Category::OTHER
        && e.element.code <= Element::ROW
}

// The number of a step that adds an entry to a buffer of so many bytes.
#[tactic(auto, unfolding(crate::specs::Numbers::entry_number_of))]
pub fn entry_number(w: Writer, n: usize, s: &[u8], e: Entry) -> u8
    ensures { result ≡ entry_number_of w n s.now e }
{
    if phase(w, n) != Writer::AT_WORK || w.nodes != 0 {
        ORDER
    } else if w.entries >= MOST_ENTRIES || s.len() > MOST_NAMES - w.names {
        LIMITS
    } else if !good_entry(w.names, s, e) {
        NAMES
    } else if 8 + s.len() > n - size(w) {
        ROOM
    } else {
        DONE
    }
}
