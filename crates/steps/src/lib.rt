#![tactic(auto)]
// The steps of writing a tape over a lent buffer and lent numbers, which keep the state.
ghost use Rattle.std.specs.Prelude.{◌≡◌, ◌≤◌, ◌<◌, length, eqb, IfNone, IfSome};
ghost use Rattle.draft.specs.Draft.{piece as piece_act, entry as entry_act, plain, leaf, opens, closes};
ghost use Rattle.tape.specs.Kind as kinds;
ghost use Rattle.writer.specs.Steps.{Started, Finished, node_with, close_kind};
ghost use Rattle.steps.specs.Numbers.{state_len, phase_in_of, writer_in, kept_in, stored_in, Called, takes, entry_with};

use layout::Writer;
use tape::{Category, Element, Entry};
use writer::Answer;

// How many numbers keep a state: phase, nodes, entries, names, source, inner, depth, and the length that the last call gave.
const STATE_LEN: usize = 8;

// What a call with fewer numbers gives: they are no state that a step gave.
const NO_STATE: u32 = 16;

// ---- numbers

// A phase; a number that is none gives 3, which no step gave.
fn to_phase(x: u64) -> u8
    ensures { result ≡ phase_in_of x }
{
    x.min(3) as u8
}

// The state that the numbers stand for; none where there are too few.
fn read(state: &[u64]) -> Option<Writer>
    ensures none { IfNone result (length state.now < state_len) }
    ensures some { IfSome result (λ w. (state_len ≤ length state.now) × (w ≡ writer_in state.now)) }
{
    if state.len() < STATE_LEN {
        return None;
    }
    Some(Writer {
        phase: to_phase(state[0]),
        nodes: state[1] as usize,
        entries: state[2] as usize,
        names: state[3] as usize,
        source: state[4] as usize,
        inner: state[5] as usize,
        depth: state[6] as usize,
    })
}

// The numbers of a state.
fn keep(state: &mut [u64], w: Writer)
    requires { state_len ≤ length state.old }
    ensures { state.new ≡ kept_in state.old w }
{
    state[0] = u64::from(w.phase);
    state[1] = w.nodes as u64;
    state[2] = w.entries as u64;
    state[3] = w.names as u64;
    state[4] = w.source as u64;
    state[5] = w.inner as u64;
    state[6] = w.depth as u64;
}

// The length given and, where the step is done, the numbers of its state; gives the answer's own number.
fn store(state: &mut [u64], r: Answer) -> u32
    requires { state_len ≤ length state.old }
    ensures value { result ≡ r.number }
    ensures state_after { state.new ≡ stored_in state.old r }
{
    if r.number == 0 {
        keep(state, r.writer);
    }
    state[7] = r.length as u64;
    u32::from(r.number)
}

// ---- the steps

// Begins a tape.
pub fn start(state: &mut [u64], buf: &mut [u8]) -> u32
    ensures { Called state.old buf.old Started result state.new buf.new }
{
    let Some(w) = read(state) else {
        return NO_STATE;
    };
    store(state, writer::start(w, buf))
}

// Adds an entry before the first node: name bytes, and the place of its own name among them all.
pub fn entry(
    state: &mut [u64],
    buf: &mut [u8],
    names: &[u8],
    start: u32,
    len: u16,
    category: u8,
    element: u8,
) -> u32
    ensures { Called state.old buf.old (takes (entry_act names.now (entry_with start len category element))) result state.new buf.new }
{
    let Some(w) = read(state) else {
        return NO_STATE;
    };
    let e = Entry {
        start,
        len,
        category: Category { code: category },
        element: Element { code: element },
    };
    store(state, writer::entry(w, buf, names, e))
}

// Adds a source piece.
pub fn source(state: &mut [u64], buf: &mut [u8], piece: &[u8]) -> u32
    ensures { Called state.old buf.old (takes (piece_act piece.now)) result state.new buf.new }
{
    let Some(w) = read(state) else {
        return NO_STATE;
    };
    store(state, writer::source(w, buf, piece))
}

// Opens a container.
pub fn open(state: &mut [u64], buf: &mut [u8], flags: u8, marker: u16, start: u32, len: u32) -> u32
    ensures { Called state.old buf.old (takes (opens (node_with kinds.marker_open flags marker 0 start len))) result state.new buf.new }
{
    let Some(w) = read(state) else {
        return NO_STATE;
    };
    store(state, writer::open(w, buf, flags, marker, start, len))
}

// Adds a MarkerOpen that links to itself.
pub fn leaf(state: &mut [u64], buf: &mut [u8], flags: u8, marker: u16, start: u32, len: u32) -> u32
    ensures { Called state.old buf.old (takes (leaf (node_with kinds.marker_open flags marker 0 start len))) result state.new buf.new }
{
    let Some(w) = read(state) else {
        return NO_STATE;
    };
    store(state, writer::leaf(w, buf, flags, marker, start, len))
}

// Closes the innermost open container: by a BlockEnd where `block` is 1, else by a MarkerClose. It is a byte, since a bool from C may hold other bits.
pub fn close(
    state: &mut [u64],
    buf: &mut [u8],
    block: u8,
    flags: u8,
    marker: u16,
    start: u32,
    len: u32,
) -> u32
    ensures { Called state.old buf.old (takes (closes (node_with (close_kind (eqb block 1)) flags marker 0 start len))) result state.new buf.new }
{
    let Some(w) = read(state) else {
        return NO_STATE;
    };
    store(
        state,
        writer::close(w, buf, block == 1, flags, marker, start, len),
    )
}

// Adds a Text.
pub fn text(state: &mut [u64], buf: &mut [u8], flags: u8, start: u32, len: u32) -> u32
    ensures { Called state.old buf.old (takes (plain (node_with kinds.text flags 65535 0 start len))) result state.new buf.new }
{
    let Some(w) = read(state) else {
        return NO_STATE;
    };
    store(state, writer::text(w, buf, flags, start, len))
}

// Adds an Attribute.
pub fn attribute(state: &mut [u64], buf: &mut [u8], flags: u8, start: u32, len: u32) -> u32
    ensures { Called state.old buf.old (takes (plain (node_with kinds.attribute flags 65535 0 start len))) result state.new buf.new }
{
    let Some(w) = read(state) else {
        return NO_STATE;
    };
    store(state, writer::attribute(w, buf, flags, start, len))
}

// Adds an Error.
pub fn error(state: &mut [u64], buf: &mut [u8], flags: u8, start: u32, len: u32) -> u32
    ensures { Called state.old buf.old (takes (plain (node_with kinds.error flags 65535 0 start len))) result state.new buf.new }
{
    let Some(w) = read(state) else {
        return NO_STATE;
    };
    store(state, writer::error(w, buf, flags, start, len))
}

// Adds a Chapter.
pub fn chapter(
    state: &mut [u64],
    buf: &mut [u8],
    flags: u8,
    marker: u16,
    number: u32,
    start: u32,
    len: u32,
) -> u32
    ensures { Called state.old buf.old (takes (plain (node_with kinds.chapter flags marker number start len))) result state.new buf.new }
{
    let Some(w) = read(state) else {
        return NO_STATE;
    };
    store(
        state,
        writer::chapter(w, buf, flags, marker, number, start, len),
    )
}

// Adds a Verse.
pub fn verse(
    state: &mut [u64],
    buf: &mut [u8],
    flags: u8,
    marker: u16,
    number: u32,
    start: u32,
    len: u32,
) -> u32
    ensures { Called state.old buf.old (takes (plain (node_with kinds.verse flags marker number start len))) result state.new buf.new }
{
    let Some(w) = read(state) else {
        return NO_STATE;
    };
    store(
        state,
        writer::verse(w, buf, flags, marker, number, start, len),
    )
}

// Finishes the tape: the file is the buffer's front, as long as the number at 7 says.
pub fn finish(state: &mut [u64], buf: &mut [u8]) -> u32
    ensures { Called state.old buf.old Finished result state.new buf.new }
{
    let Some(w) = read(state) else {
        return NO_STATE;
    };
    store(state, writer::finish(w, buf))
}
