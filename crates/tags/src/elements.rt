// The sixteen elements, by number from 1 in document 01's order.
ghost use Rattle.std.specs.Prelude.{◌≡◌};

// An element of the text; a number and no enum, since `head_at` and the tokens of specs/ give it so.
#[derive(Clone, Copy)]
pub struct Element {
    pub code: u8,
}

impl Element {
    pub const USX: u8 = 1;

    pub const BOOK: u8 = 2;

    pub const CHAPTER: u8 = 3;

    pub const VERSE: u8 = 4;

    pub const PARA: u8 = 5;

    pub const CHAR: u8 = 6;

    pub const NOTE: u8 = 7;

    pub const MS: u8 = 8;

    pub const FIGURE: u8 = 9;

    pub const TABLE: u8 = 10;

    pub const ROW: u8 = 11;

    pub const CELL: u8 = 12;

    pub const SIDEBAR: u8 = 13;

    pub const PERIPH: u8 = 14;

    pub const OPTBREAK: u8 = 15;

    pub const REF: u8 = 16;

    pub fn new(code: u8) -> Self
        ensures { result.code ≡ code }
    {
        Element { code }
    }
}
