// The steps of writing a tape, for C: over a lent buffer and lent numbers, which keep the state.
ghost use Rattle.std.specs.Prelude.{eqb};
ghost use Rattle.draft.specs.Draft.{piece as piece_act, entry as entry_act, plain, leaf, opens, closes};
ghost use Rattle.tape.specs.Kind as kinds;
ghost use Rattle.writer.specs.Steps.{Started, Finished, node_with, close_kind};
ghost use Rattle.steps.specs.Numbers.{Called, takes, entry_with};

// Begins a tape.
#[unsafe(no_mangle)]
pub extern "C" fn andelura_tape_start(state: &mut [u64], buf: &mut [u8]) -> u32
    ensures { Called state.old buf.old Started result state.new buf.new }
{
    steps::start(state, buf)
}

// Adds an entry before the first node: name bytes, and the place of its own name among them all.
#[unsafe(no_mangle)]
pub extern "C" fn andelura_tape_entry(
    state: &mut [u64],
    buf: &mut [u8],
    names: &[u8],
    start: u32,
    len: u16,
    category: u8,
    element: u8,
) -> u32
    ensures { Called state.old buf.old (takes (entry_act names.now (entry_with start len category element))) result state.new buf.new }
{
    steps::entry(state, buf, names, start, len, category, element)
}

// Adds a source piece.
#[unsafe(no_mangle)]
pub extern "C" fn andelura_tape_source(state: &mut [u64], buf: &mut [u8], piece: &[u8]) -> u32
    ensures { Called state.old buf.old (takes (piece_act piece.now)) result state.new buf.new }
{
    steps::source(state, buf, piece)
}

// Opens a container.
#[unsafe(no_mangle)]
pub extern "C" fn andelura_tape_open(
    state: &mut [u64],
    buf: &mut [u8],
    flags: u8,
    marker: u16,
    start: u32,
    len: u32,
) -> u32
    ensures { Called state.old buf.old (takes (opens (node_with kinds.marker_open flags marker 0 start len))) result state.new buf.new }
{
    steps::open(state, buf, flags, marker, start, len)
}

// Adds a MarkerOpen that links to itself.
#[unsafe(no_mangle)]
pub extern "C" fn andelura_tape_leaf(
    state: &mut [u64],
    buf: &mut [u8],
    flags: u8,
    marker: u16,
    start: u32,
    len: u32,
) -> u32
    ensures { Called state.old buf.old (takes (leaf (node_with kinds.marker_open flags marker 0 start len))) result state.new buf.new }
{
    steps::leaf(state, buf, flags, marker, start, len)
}

// Closes the innermost open container: by a BlockEnd where `block` is 1, else by a MarkerClose. It is a byte, since a bool from C may hold other bits.
#[unsafe(no_mangle)]
pub extern "C" fn andelura_tape_close(
    state: &mut [u64],
    buf: &mut [u8],
    block: u8,
    flags: u8,
    marker: u16,
    start: u32,
    len: u32,
) -> u32
    ensures { Called state.old buf.old (takes (closes (node_with (close_kind (eqb block 1)) flags marker 0 start len))) result state.new buf.new }
{
    steps::close(state, buf, block, flags, marker, start, len)
}

// Adds a Text.
#[unsafe(no_mangle)]
pub extern "C" fn andelura_tape_text(
    state: &mut [u64],
    buf: &mut [u8],
    flags: u8,
    start: u32,
    len: u32,
) -> u32
    ensures { Called state.old buf.old (takes (plain (node_with kinds.text flags 65535 0 start len))) result state.new buf.new }
{
    steps::text(state, buf, flags, start, len)
}

// Adds an Attribute.
#[unsafe(no_mangle)]
pub extern "C" fn andelura_tape_attribute(
    state: &mut [u64],
    buf: &mut [u8],
    flags: u8,
    start: u32,
    len: u32,
) -> u32
    ensures { Called state.old buf.old (takes (plain (node_with kinds.attribute flags 65535 0 start len))) result state.new buf.new }
{
    steps::attribute(state, buf, flags, start, len)
}

// Adds an Error.
#[unsafe(no_mangle)]
pub extern "C" fn andelura_tape_error(
    state: &mut [u64],
    buf: &mut [u8],
    flags: u8,
    start: u32,
    len: u32,
) -> u32
    ensures { Called state.old buf.old (takes (plain (node_with kinds.error flags 65535 0 start len))) result state.new buf.new }
{
    steps::error(state, buf, flags, start, len)
}

// Adds a Chapter.
#[unsafe(no_mangle)]
pub extern "C" fn andelura_tape_chapter(
    state: &mut [u64],
    buf: &mut [u8],
    flags: u8,
    marker: u16,
    number: u32,
    start: u32,
    len: u32,
) -> u32
    ensures { Called state.old buf.old (takes (plain (node_with kinds.chapter flags marker number start len))) result state.new buf.new }
{
    steps::chapter(state, buf, flags, marker, number, start, len)
}

// Adds a Verse.
#[unsafe(no_mangle)]
pub extern "C" fn andelura_tape_verse(
    state: &mut [u64],
    buf: &mut [u8],
    flags: u8,
    marker: u16,
    number: u32,
    start: u32,
    len: u32,
) -> u32
    ensures { Called state.old buf.old (takes (plain (node_with kinds.verse flags marker number start len))) result state.new buf.new }
{
    steps::verse(state, buf, flags, marker, number, start, len)
}

// Finishes the tape: the file is the buffer's front, as long as the number at 7 says.
#[unsafe(no_mangle)]
pub extern "C" fn andelura_tape_finish(state: &mut [u64], buf: &mut [u8]) -> u32
    ensures { Called state.old buf.old Finished result state.new buf.new }
{
    steps::finish(state, buf)
}
