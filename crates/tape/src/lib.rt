#![tactic(auto)]
// The tape file: its sections, its nodes and entries, and a cursor on a node.
mod kinds;
mod name;
mod number;

ghost use Rattle.std.specs.Prelude.{◌≡◌, ◌+◌, ◌*◌, ◌≤◌, ◌<◌, ◌^◌, length, drop};
ghost use Rattle.parts.specs.Bytes.{part, same};
ghost use Rattle.parts.specs.Place.{VeryPart};
ghost use Rattle.tape.specs.File.{le32 as le32_of, node_of, entry_of, sections_of, contents, entries_at, names_at, source_at, node_at, entry_at, kind_at, text_at_of, text_start, entry_name, entry_start, bytes_at, entry_bytes_at, is_synthetic, is_nested, bears_marker, info_at, number_at, category_of, element_of, base_len, info_name, name_of_start};
ghost use Rattle.tape.specs.Name.{marker_name, marker_start, marker_len, entry_is_of};
ghost use Rattle.tape.specs.Tree.{is_close, holds, matching_close, child_before, first_child, last_held, sibling_past, next_sibling};

pub use kinds::{Category, Element, Flags, Kind};
pub use name::{bare, ends_name, name_in};
pub use number::{long, short};

// A node of the tape.
#[derive(Clone, Copy)]
pub struct Node {
    pub kind: Kind,
    pub flags: Flags,
    pub marker: u16,
    pub link: u32,
    pub start: u32,
    pub len: u32,
}

// What the tape says of a marker: where its name stands, its category and its element.
#[derive(Clone, Copy)]
pub struct Entry {
    pub start: u32,
    pub len: u16,
    pub category: Category,
    pub element: Element,
}

// The length of the header, and the counts of nodes, entries, name bytes and source bytes.
#[derive(Clone, Copy)]
pub struct Sections {
    pub head: u32,
    pub nodes: u32,
    pub entries: u32,
    pub names: u32,
    pub source: u32,
}

// A tape file, and the sections that are read in it.
#[derive(Clone, Copy)]
pub struct TapeFile<'a> {
    pub file: &'a [u8],
    pub sections: Sections,
}

// A node of the tape, by its index.
#[derive(Clone, Copy)]
pub struct Cursor {
    pub at: u32,
}

// The number of the first four bytes, as a length.
pub fn length_of(s: &[u8]) -> usize
    ensures { result ≡ le32_of s.now }
{
    long(number::le32(s))
}

impl Sections {
    pub const FORMAT: usize = 1;

    // How long the header is.
    pub const HEADER: u32 = 36;

    // The counts that a file's header gives.
    pub fn of(file: &[u8]) -> Self
        ensures { result ≡ sections_of file.now }
    {
        Sections {
            head: Sections::HEADER,
            nodes: number::le32(parts::from(file, 4)),
            entries: number::le32(parts::from(file, 12)),
            names: number::le32(parts::from(file, 20)),
            source: number::le32(parts::from(file, 28)),
        }
    }

    // Where the entries stand.
    pub fn entries_at(self) -> usize
        ensures { result ≡ entries_at self }
    {
        long(self.head) + 16 * long(self.nodes)
    }

    // Where the names stand.
    pub fn names_at(self) -> usize
        ensures { result ≡ names_at self }
    {
        self.entries_at() + 8 * long(self.entries)
    }

    // Where the source stands.
    pub fn source_at(self) -> usize
        ensures { result ≡ source_at self }
    {
        self.names_at() + long(self.names)
    }
}

impl Node {
    // The node of the first 16 bytes, where there are so many.
    fn of(s: &[u8]) -> Self
        ensures { result ≡ node_of s.now }
    {
        if 16 <= s.len() {
            return Node {
                kind: Kind::new(s[0]),
                flags: Flags::new(s[1]),
                marker: number::pair(s[2], s[3]),
                link: number::quad(s[4], s[5], s[6], s[7]),
                start: number::quad(s[8], s[9], s[10], s[11]),
                len: number::quad(s[12], s[13], s[14], s[15]),
            };
        }
        Node {
            kind: Kind::new(Kind::ERROR),
            flags: Flags::new(0),
            marker: 65535,
            link: 0,
            start: 0,
            len: 0,
        }
    }
}

impl Entry {
    // The entry of the first 8 bytes, where there are so many.
    pub fn of(s: &[u8]) -> Self
        ensures { result ≡ entry_of s.now }
    {
        if 8 <= s.len() {
            return Entry {
                start: number::quad(s[0], s[1], s[2], s[3]),
                len: number::pair(s[4], s[5]),
                category: Category::new(s[6]),
                element: Element::new(s[7]),
            };
        }
        Entry {
            start: 0,
            len: 0,
            category: Category::new(Category::OTHER),
            element: Element::new(Element::OTHER),
        }
    }
}

impl<'a> TapeFile<'a> {
    // Where the node of an index stands.
    fn node_place(&self, at: u32) -> usize
        ensures { result ≡ self.now.sections.head + 16 * at }
    {
        long(self.sections.head) + 16 * long(at)
    }

    // The bytes of a node: all 16, or none.
    fn bytes_at(&self, at: u32) -> &'a [u8]
        ensures { result.now ≡ bytes_at self.now.sections self.now.file.now at }
    {
        if at < self.sections.nodes {
            let place = self.node_place(at);
            let end = place + 16;
            if end <= self.file.len() {
                return &self.file[place..end];
            }
            return &self.file[..0];
        }
        &self.file[..0]
    }

    // The node at an index.
    pub fn node_at(&self, at: u32) -> Node
        ensures { result ≡ node_at (contents self.now) at }
    {
        Node::of(self.bytes_at(at))
    }

    // The bytes of an entry: all 8, or none.
    fn entry_bytes(&self, at: u32) -> &'a [u8]
        ensures { result.now ≡ entry_bytes_at self.now.sections self.now.file.now at }
    {
        if at < self.sections.entries {
            let place = self.sections.entries_at() + 8 * long(at);
            let end = place + 8;
            if end <= self.file.len() {
                return &self.file[place..end];
            }
            return &self.file[..0];
        }
        &self.file[..0]
    }

    // The entry at an index.
    pub fn entry_at(&self, at: u32) -> Entry
        ensures { result ≡ entry_at (contents self.now) at }
    {
        Entry::of(self.entry_bytes(at))
    }

    // The name bytes.
    pub fn names(&self) -> &'a [u8]
        ensures bytes { result.now ≡ (contents self.now).names }
        ensures place { VeryPart self.now.file result (names_at self.now.sections) self.now.sections.names }
    {
        parts::part(
            self.file,
            self.sections.names_at(),
            long(self.sections.names),
        )
    }

    // The source bytes.
    pub fn source(&self) -> &'a [u8]
        ensures bytes { result.now ≡ (contents self.now).source }
        ensures place { VeryPart self.now.file result (source_at self.now.sections) self.now.sections.source }
        ensures upper_bound { length result.now < 2 ^ 32 }
    {
        parts::part(
            self.file,
            self.sections.source_at(),
            long(self.sections.source),
        )
    }

    // The name of an entry.
    pub fn entry_name(&self, e: Entry) -> &'a [u8]
        ensures bytes { result.now ≡ entry_name (contents self.now) e }
        ensures place { VeryPart self.now.file result (entry_start self.now.sections self.now.file.now e) (length (entry_name (contents self.now) e)) }
    {
        parts::part(self.names(), long(e.start), short(e.len))
    }
}

impl Kind {
    // Whether a node of this kind ends another.
    #[tactic(auto, unfolding(crate::specs::Tree::is_close))]
    pub fn is_close(self) -> bool
        ensures { result ≡ is_close self.code }
    {
        self.code == Kind::MARKER_CLOSE || self.code == Kind::BLOCK_END
    }

    // Whether a node of this kind holds others.
    #[tactic(auto, unfolding(crate::specs::Tree::holds))]
    pub fn holds(self) -> bool
        ensures { result ≡ holds self.code }
    {
        self.code == Kind::ROOT || self.code == Kind::MARKER_OPEN
    }

    // Whether a node of this kind bears a marker.
    #[tactic(auto, unfolding(crate::specs::File::bears_marker))]
    pub fn bears_marker(self) -> bool
        ensures { result ≡ bears_marker self.code }
    {
        Kind::MARKER_OPEN <= self.code && self.code <= Kind::VERSE
    }
}

impl Cursor {
    pub fn new(at: u32) -> Self
        ensures { result.at ≡ at }
    {
        Cursor { at }
    }

    pub fn node(self, tape: &TapeFile<'_>) -> Node
        ensures { result ≡ node_at (contents tape.now) self.at }
    {
        tape.node_at(self.at)
    }

    pub fn kind(self, tape: &TapeFile<'_>) -> Kind
        ensures { result.code ≡ kind_at (contents tape.now) self.at }
    {
        self.node(tape).kind
    }

    pub fn link(self, tape: &TapeFile<'_>) -> u32
        ensures { result ≡ (node_at (contents tape.now) self.at).link }
    {
        self.node(tape).link
    }

    // Where the node's span starts.
    pub fn start(self, tape: &TapeFile<'_>) -> u32
        ensures { result ≡ (node_at (contents tape.now) self.at).start }
    {
        self.node(tape).start
    }

    // How long the node's span is.
    fn len(self, tape: &TapeFile<'_>) -> u32
        ensures { result ≡ (node_at (contents tape.now) self.at).len }
    {
        self.node(tape).len
    }

    // The index of the node's entry.
    fn marker(self, tape: &TapeFile<'_>) -> u16
        ensures { result ≡ (node_at (contents tape.now) self.at).marker }
    {
        self.node(tape).marker
    }

    pub fn is_synthetic(self, tape: &TapeFile<'_>) -> bool
        ensures { result ≡ is_synthetic (contents tape.now) self.at }
    {
        self.flags(tape).bits / Flags::SYNTHETIC % 2 == 1
    }

    pub fn is_nested(self, tape: &TapeFile<'_>) -> bool
        ensures { result ≡ is_nested (contents tape.now) self.at }
    {
        self.flags(tape).bits / Flags::NESTED % 2 == 1
    }

    // The number of a Chapter or Verse; 0 for other kinds.
    pub fn number(self, tape: &TapeFile<'_>) -> u32
        ensures { result ≡ number_at (contents tape.now) self.at }
    {
        let n = self.node(tape);
        if n.kind.code == Kind::CHAPTER {
            return n.link;
        }
        if n.kind.code == Kind::VERSE {
            return n.link;
        }
        0
    }

    // What the tape says of the node's marker.
    pub fn marker_info(self, tape: &TapeFile<'_>) -> Option<Entry>
        ensures { result ≡ info_at (contents tape.now) self.at }
    {
        if self.kind(tape).bears_marker() {
            let marker = u32::from(self.marker(tape));
            if marker < tape.sections.entries {
                Some(tape.entry_at(marker))
            } else {
                None
            }
        } else {
            None
        }
    }

    pub fn flags(self, tape: &TapeFile<'_>) -> Flags
        ensures { result.bits ≡ (node_at (contents tape.now) self.at).flags.bits }
    {
        self.node(tape).flags
    }

    // The category of the node's entry; Other where it is unknown.
    pub fn category(self, tape: &TapeFile<'_>) -> Category
        ensures { result.code ≡ category_of (info_at (contents tape.now) self.at) }
    {
        match self.marker_info(tape) {
            Some(e) => e.category,
            None => Category::new(Category::OTHER),
        }
    }

    // The element of the node's entry; other where it is unknown.
    pub fn element(self, tape: &TapeFile<'_>) -> Element
        ensures { result.code ≡ element_of (info_at (contents tape.now) self.at) }
    {
        match self.marker_info(tape) {
            Some(e) => e.element,
            None => Element::new(Element::OTHER),
        }
    }

    // How long the name of the node's entry is; unknown counts 0.
    pub fn base_len(self, tape: &TapeFile<'_>) -> usize
        ensures value { result ≡ base_len (info_at (contents tape.now) self.at) }
        ensures upper_bound { result < 2 ^ 16 }
    {
        match self.marker_info(tape) {
            Some(e) => short(e.len),
            None => 0,
        }
    }

    // The name of the node's entry; nothing where it is unknown.
    pub fn entry_name<'a>(self, tape: &TapeFile<'a>) -> &'a [u8]
        ensures bytes { result.now ≡ info_name (contents tape.now) (info_at (contents tape.now) self.at) }
        ensures place { VeryPart tape.now.file result (name_of_start tape.now.sections tape.now.file.now (info_at (contents tape.now) self.at)) (length (info_name (contents tape.now) (info_at (contents tape.now) self.at))) }
    {
        match self.marker_info(tape) {
            Some(e) => tape.entry_name(e),
            None => parts::part(tape.file, 0, 0),
        }
    }

    // The node's span of the source.
    pub fn text<'a>(self, tape: &TapeFile<'a>) -> &'a [u8]
        ensures bytes { result.now ≡ text_at_of (contents tape.now) self.at }
        ensures place { VeryPart tape.now.file result (text_start tape.now.sections tape.now.file.now self.at) (length (text_at_of (contents tape.now) self.at)) }
    {
        let start = long(self.start(tape));
        parts::part(tape.source(), start, long(self.len(tape)))
    }

    // The source from the node's span on.
    pub fn tail<'a>(self, tape: &TapeFile<'a>) -> &'a [u8]
        ensures { result.now ≡ drop (node_at (contents tape.now) self.at).start (contents tape.now).source }
    {
        parts::from(tape.source(), long(self.start(tape)))
    }

    // How long the node's text is.
    pub fn size(self, tape: &TapeFile<'_>) -> usize
        ensures { result ≡ length (text_at_of (contents tape.now) self.at) }
    {
        let left = self.tail(tape).len();
        let n = long(self.len(tape));
        if n < left { n } else { left }
    }

    // The node that a MarkerOpen links to.
    pub fn matching_close(self, tape: &TapeFile<'_>) -> Option<Cursor>
        ensures { result ≡ matching_close (contents tape.now) self.at }
    {
        if self.kind(tape).code == Kind::MARKER_OPEN {
            Some(Cursor::new(self.link(tape)))
        } else {
            None
        }
    }

    pub fn first_child(self, tape: &TapeFile<'_>) -> Option<Cursor>
        ensures { result ≡ first_child (contents tape.now) self.at }
    {
        if self.kind(tape).holds() {
            child_before(tape.sections.nodes, self.at, self.link(tape))
        } else {
            None
        }
    }

    pub fn next_sibling(self, tape: &TapeFile<'_>) -> Option<Cursor>
        ensures { result ≡ next_sibling (contents tape.now) self.at }
    {
        past(tape, self.at, self.last(tape))
    }

    // The last node of what this one holds: its link, or itself.
    fn last(self, tape: &TapeFile<'_>) -> u32
        ensures { result ≡ last_held (contents tape.now) self.at }
    {
        if self.kind(tape).holds() {
            self.link(tape)
        } else {
            self.at
        }
    }

    // The marker name: the very part of the file between an optional `\`, an optional `+`, and white space, `*`, `|`, `\` or the node's end.
    pub fn marker_name<'a>(self, tape: &TapeFile<'a>) -> &'a [u8]
        ensures bytes { result.now ≡ marker_name (contents tape.now) self.at }
        ensures place { VeryPart tape.now.file result (marker_start tape.now.sections tape.now.file.now self.at) (marker_len (contents tape.now) self.at) }
    {
        name::name_in(self.text(tape))
    }

    // Whether the marker name is this one.
    pub fn is_named(self, tape: &TapeFile<'_>, name: &[u8]) -> bool
        ensures { result ≡ same (marker_name (contents tape.now) self.at) name.now }
    {
        parts::same(self.marker_name(tape), name)
    }

    // Whether the node has an entry of this name.
    pub fn has_entry(self, tape: &TapeFile<'_>, name: &[u8]) -> bool
        ensures { result ≡ entry_is_of (contents tape.now) self.at name.now }
    {
        match self.marker_info(tape) {
            Some(e) => parts::same(tape.entry_name(e), name),
            None => false,
        }
    }
}

// The node behind `at`, if it stands before the link and on a tape of so many nodes.
fn child_before(nodes: u32, at: u32, link: u32) -> Option<Cursor>
    ensures { result ≡ child_before nodes at link }
{
    if link <= at {
        return None;
    }
    let next = at + 1;
    if link <= next {
        return None;
    }
    if next < nodes {
        Some(Cursor::new(next))
    } else {
        None
    }
}

// The node behind `last`, if it is on the tape, stands behind `at` and closes nothing.
fn past(tape: &TapeFile<'_>, at: u32, last: u32) -> Option<Cursor>
    ensures { result ≡ sibling_past (contents tape.now) at last }
{
    if last < at {
        return None;
    }
    if tape.sections.nodes <= last {
        return None;
    }
    let next = last + 1;
    if tape.sections.nodes <= next {
        return None;
    }
    let c = Cursor::new(next);
    if c.kind(tape).is_close() {
        None
    } else {
        Some(c)
    }
}
