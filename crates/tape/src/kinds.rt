// The numbers of the tape file, each belonging to its type. They are bytes and no enums: a tape may hold any byte, and refusals 4 and 5 speak of those that name nothing.
ghost use Rattle.std.specs.Prelude.{◌≡◌};

// What a node is.
#[derive(Clone, Copy, PartialEq, Eq)]
pub struct Kind {
    pub code: u8,
}

impl Kind {
    pub const ROOT: u8 = 0;

    pub const TEXT: u8 = 1;

    pub const ATTRIBUTE: u8 = 2;

    pub const MARKER_OPEN: u8 = 3;

    pub const MARKER_CLOSE: u8 = 4;

    pub const BLOCK_END: u8 = 5;

    pub const CHAPTER: u8 = 6;

    pub const VERSE: u8 = 7;

    pub const ERROR: u8 = 8;

    pub fn new(code: u8) -> Self
        ensures { result.code ≡ code }
    {
        Kind { code }
    }
}

// Bits of a node.
#[derive(Clone, Copy, PartialEq, Eq)]
pub struct Flags {
    pub bits: u8,
}

impl Flags {
    pub const SYNTHETIC: u8 = 1;

    pub const NESTED: u8 = 2;

    pub const ALL: u8 = 3;

    pub fn new(bits: u8) -> Self
        ensures { result.bits ≡ bits }
    {
        Flags { bits }
    }
}

// The family of a marker.
#[derive(Clone, Copy, PartialEq, Eq)]
pub struct Category {
    pub code: u8,
}

impl Category {
    pub const IDENTIFICATION: u8 = 0;

    pub const CHAPTER: u8 = 1;

    pub const VERSE: u8 = 2;

    pub const PARAGRAPH: u8 = 3;

    pub const CHARACTER: u8 = 4;

    pub const NOTE: u8 = 5;

    pub const MILESTONE: u8 = 6;

    pub const OTHER: u8 = 7;

    pub fn new(code: u8) -> Self
        ensures { result.code ≡ code }
    {
        Category { code }
    }
}

// The element that a marker stands for, where its category does not say.
#[derive(Clone, Copy, PartialEq, Eq)]
pub struct Element {
    pub code: u8,
}

impl Element {
    pub const OTHER: u8 = 0;

    pub const SIDEBAR: u8 = 1;

    pub const PERIPH: u8 = 2;

    pub const ROW: u8 = 3;

    pub fn new(code: u8) -> Self
        ensures { result.code ≡ code }
    {
        Element { code }
    }
}
