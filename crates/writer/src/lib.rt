#![tactic(auto)]
// A tape written step by step into a lent buffer.
ghost use Rattle.std.specs.Prelude.{◌≡◌, ◌&&◌, ◌+◌, ◌-◌, ◌^◌, ◌<◌, length, take, ltb};
ghost use Rattle.draft.specs.Draft.{empty, piece as piece_act, entry as entry_act, plain, leaf as leaf_act, opens, closes};
ghost use Rattle.draft.specs.Fault.{first as first_of};
ghost use Rattle.layout.specs.Layout.{file_len, held_in, head_of, free_of, laid, state_of};
ghost use Rattle.layout.specs.Steps.{push, link, outer, pushed, poured, entered};
ghost use Rattle.tape.specs.Kind as kinds;
ghost use Rattle.writer.specs.Steps.{pick, answer_of, Took, Started, Finished, node_with, close_kind};
ghost use Rattle.judge.specs.Numbers.{node_number_of};
ghost use Rattle.writer.specs.States.{refused_with, ended as ended_of};

use judge::{
    DEPTH, DONE, MOST_NAMES, MOST_OPEN, MOST_SOURCE, NESTING, ORDER, ROOM, entry_number,
    finish_number, is_limited, node_number, piece_number, size, start_number,
};
pub use layout::Writer;
use tape::{Entry, Flags, Kind, Node};

// The marker number of a node that bears no marker.
const NO_MARKER: u16 = 65535;

// What a step answers: its number, 0 where it is done; the length of the file with it, where it is done or would need room (8), else 0; the state behind it.
#[derive(Clone, Copy)]
pub struct Answer {
    pub number: u8,
    pub length: usize,
    pub writer: Writer,
}

// The answer of a refused step, which would have added so many bytes.
fn refused(number: u8, w: Writer, more: usize) -> Answer
    requires { more < 2 ^ 32 }
    ensures { result ≡ refused_with number w more }
{
    let length = if number == ROOM && is_limited(w) {
        size(w) + more
    } else {
        0
    };
    Answer {
        number,
        length,
        writer: w,
    }
}

// The state with a node more.
fn with_node(w: Writer, inner: usize, depth: usize) -> Writer
    requires { w.nodes < 2 ^ 32 }
    ensures { result ≡ pushed w inner depth }
{
    Writer {
        phase: Writer::AT_WORK,
        nodes: w.nodes + 1,
        inner,
        depth,
        ..w
    }
}

// A node that closes none.
fn put(w: Writer, buf: &mut [u8], node: Node, nest: u8, inner: usize, depth: usize) -> Answer
    ensures value { result ≡ answer_of (node_number_of w buf.old node nest) (file_len w + 16) (pushed w inner depth) w }
    ensures buf_after { buf.new ≡ pick (node_number_of w buf.old node nest)
        (laid (head_of buf.old) (push (held_in w buf.old) node) (take (length (free_of w buf.old) - 16) (free_of w buf.old))) buf.old }
{
    let number = node_number(w, buf, node, nest);
    if number != DONE {
        return refused(number, w, 16);
    }
    let length = size(w) + 16;
    let writer = with_node(w, inner, depth);
    layout::add(w, buf, node);
    Answer {
        number,
        length,
        writer,
    }
}

// Whether a further container may be opened: 6 where 64 are.
fn open_nest(w: Writer) -> u8
    ensures { result ≡ first_of (ltb w.depth 64) 6 0 }
{
    if w.depth < MOST_OPEN { DONE } else { DEPTH }
}

// Whether a container is open: 7 where none is.
fn close_nest(w: Writer) -> u8
    ensures { result ≡ first_of (ltb 0 w.inner && ltb 0 w.depth) 7 0 }
{
    if 0 < w.inner && 0 < w.depth {
        DONE
    } else {
        NESTING
    }
}

// A node that closes the innermost open container.
fn end(w: Writer, buf: &mut [u8], node: Node) -> Answer
    ensures value { result ≡ answer_of (node_number_of w buf.old node (first_of (ltb 0 w.inner && ltb 0 w.depth) 7 0)) (file_len w + 16)
        (pushed w (outer (held_in w buf.old) w.inner) (w.depth - 1)) w }
    ensures buf_after { buf.new ≡ pick (node_number_of w buf.old node (first_of (ltb 0 w.inner && ltb 0 w.depth) 7 0))
        (laid (head_of buf.old) (push (link (held_in w buf.old) w.inner (w.nodes + 1)) node) (take (length (free_of w buf.old) - 16) (free_of w buf.old)))
        buf.old }
{
    let number = node_number(w, buf, node, close_nest(w));
    if number != DONE {
        return refused(number, w, 16);
    }
    let length = size(w) + 16;
    let depth = w.depth - 1;
    let inner = layout::shut(w, buf, node);
    let writer = with_node(w, inner, depth);
    Answer {
        number,
        length,
        writer,
    }
}

// A node of these fields.
fn node_of(kind: u8, flags: u8, marker: u16, link: u32, start: u32, len: u32) -> Node
    ensures { result ≡ node_with kind flags marker link start len }
{
    Node {
        kind: Kind { code: kind },
        flags: Flags { bits: flags },
        marker,
        link,
        start,
        len,
    }
}

// The kind of a close.
fn close_kind(block: bool) -> u8
    ensures { result ≡ close_kind block }
{
    if block {
        Kind::BLOCK_END
    } else {
        Kind::MARKER_CLOSE
    }
}

// The state with more source bytes.
fn with_source(w: Writer, more: usize) -> Writer
    requires { w.source + more < 2 ^ 32 }
    ensures { result ≡ poured w more }
{
    Writer {
        phase: Writer::AT_WORK,
        source: w.source + more,
        ..w
    }
}

// The state with an entry more, and name bytes.
fn with_entry(w: Writer, more: usize) -> Writer
    requires { (w.entries < 2 ^ 32) × (w.names + more < 2 ^ 32) }
    ensures { result ≡ entered w more }
{
    Writer {
        phase: Writer::AT_WORK,
        entries: w.entries + 1,
        names: w.names + more,
        ..w
    }
}

// The state of a finished file.
fn ended(w: Writer) -> Writer
    ensures { result ≡ ended_of w }
{
    Writer {
        phase: Writer::FINISHED,
        ..w
    }
}

// A state before start.
pub fn new() -> Writer
    ensures { result ≡ state_of 0 empty }
{
    Writer {
        phase: Writer::BEFORE_START,
        nodes: 0,
        entries: 0,
        names: 0,
        source: 0,
        inner: 0,
        depth: 0,
    }
}

// ---- the steps

// Begins a tape. No byte of the buffer is written yet.
pub fn start(w: Writer, buf: &mut [u8]) -> Answer
    ensures { Started w buf.old result buf.new }
{
    let number = start_number(w, buf.len());
    match number {
        DONE => Answer {
            number,
            length: 52,
            writer: Writer {
                phase: Writer::AT_WORK,
                ..new()
            },
        },
        ROOM => Answer {
            number,
            length: 52,
            writer: w,
        },
        _ => Answer {
            number,
            length: 0,
            writer: w,
        },
    }
}

// Adds an entry before the first node: name bytes behind those added so far, and the place of its own name among them all.
pub fn entry(w: Writer, buf: &mut [u8], names: &[u8], e: Entry) -> Answer
    ensures { Took w buf.old (entry_act names.now e) result buf.new }
{
    let number = entry_number(w, buf.len(), names, e);
    let more = names.len().min(MOST_NAMES);
    if number != DONE {
        return refused(number, w, 8 + more);
    }
    let length = size(w) + (8 + more);
    let writer = with_entry(w, more);
    layout::enroll(w, buf, names, e);
    Answer {
        number,
        length,
        writer,
    }
}

// Adds a source piece.
pub fn source(w: Writer, buf: &mut [u8], piece: &[u8]) -> Answer
    ensures { Took w buf.old (piece_act piece.now) result buf.new }
{
    let number = piece_number(w, buf.len(), piece);
    let more = piece.len().min(MOST_SOURCE);
    if number != DONE {
        return refused(number, w, more);
    }
    let length = size(w) + more;
    let writer = with_source(w, more);
    layout::flow(w, buf, piece);
    Answer {
        number,
        length,
        writer,
    }
}

// Adds a Text.
pub fn text(w: Writer, buf: &mut [u8], flags: u8, start: u32, len: u32) -> Answer
    ensures { Took w buf.old (plain (node_with kinds.text flags 65535 0 start len)) result buf.new }
{
    let node = node_of(Kind::TEXT, flags, NO_MARKER, 0, start, len);
    put(w, buf, node, DONE, w.inner, w.depth)
}

// Adds an Attribute.
pub fn attribute(w: Writer, buf: &mut [u8], flags: u8, start: u32, len: u32) -> Answer
    ensures { Took w buf.old (plain (node_with kinds.attribute flags 65535 0 start len)) result buf.new }
{
    let node = node_of(Kind::ATTRIBUTE, flags, NO_MARKER, 0, start, len);
    put(w, buf, node, DONE, w.inner, w.depth)
}

// Adds an Error.
pub fn error(w: Writer, buf: &mut [u8], flags: u8, start: u32, len: u32) -> Answer
    ensures { Took w buf.old (plain (node_with kinds.error flags 65535 0 start len)) result buf.new }
{
    let node = node_of(Kind::ERROR, flags, NO_MARKER, 0, start, len);
    put(w, buf, node, DONE, w.inner, w.depth)
}

// Adds a Chapter.
pub fn chapter(
    w: Writer,
    buf: &mut [u8],
    flags: u8,
    marker: u16,
    number: u32,
    start: u32,
    len: u32,
) -> Answer
    ensures { Took w buf.old (plain (node_with kinds.chapter flags marker number start len)) result buf.new }
{
    let node = node_of(Kind::CHAPTER, flags, marker, number, start, len);
    put(w, buf, node, DONE, w.inner, w.depth)
}

// Adds a Verse.
pub fn verse(
    w: Writer,
    buf: &mut [u8],
    flags: u8,
    marker: u16,
    number: u32,
    start: u32,
    len: u32,
) -> Answer
    ensures { Took w buf.old (plain (node_with kinds.verse flags marker number start len)) result buf.new }
{
    let node = node_of(Kind::VERSE, flags, marker, number, start, len);
    put(w, buf, node, DONE, w.inner, w.depth)
}

// Adds a MarkerOpen that links to itself.
pub fn leaf(w: Writer, buf: &mut [u8], flags: u8, marker: u16, start: u32, len: u32) -> Answer
    ensures { Took w buf.old (leaf_act (node_with kinds.marker_open flags marker 0 start len)) result buf.new }
{
    if !is_limited(w) {
        return refused(ORDER, w, 0);
    }
    let next = (w.nodes + 1) as u32;
    let node = node_of(Kind::MARKER_OPEN, flags, marker, next, start, len);
    put(w, buf, node, DONE, w.inner, w.depth)
}

// Opens a container; it links to the one around it until it is closed.
pub fn open(w: Writer, buf: &mut [u8], flags: u8, marker: u16, start: u32, len: u32) -> Answer
    ensures { Took w buf.old (opens (node_with kinds.marker_open flags marker 0 start len)) result buf.new }
{
    if !is_limited(w) {
        return refused(ORDER, w, 0);
    }
    let around = w.inner as u32;
    let node = node_of(Kind::MARKER_OPEN, flags, marker, around, start, len);
    put(w, buf, node, open_nest(w), w.nodes + 1, w.depth + 1)
}

// Closes the innermost open container, by a BlockEnd or a MarkerClose.
pub fn close(
    w: Writer,
    buf: &mut [u8],
    block: bool,
    flags: u8,
    marker: u16,
    start: u32,
    len: u32,
) -> Answer
    ensures { Took w buf.old (closes (node_with (close_kind block) flags marker 0 start len)) result buf.new }
{
    let node = node_of(close_kind(block), flags, marker, 0, start, len);
    end(w, buf, node)
}

// Finishes the tape: the file is the buffer's front, as long as the answer says.
pub fn finish(w: Writer, buf: &mut [u8]) -> Answer
    ensures { Finished w buf.old result buf.new }
{
    let number = finish_number(w, buf.len());
    if number != DONE {
        return refused(number, w, 0);
    }
    let length = size(w);
    layout::close_up(w, buf);
    Answer {
        number,
        length,
        writer: ended(w),
    }
}
