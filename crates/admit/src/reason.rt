// Why a tape file is refused.
ghost use Rattle.std.specs.Prelude.{◌≡◌};
ghost use Rattle.admit.specs.Refusal.{reason_number};

// What is wrong with a file: the header and its offsets, a limit, the source's UTF-8, the names and entries, a node, the depth, or the nesting.
#[derive(Clone, Copy, PartialEq, Eq, Debug)]
pub enum Reason {
    Layout = 1,
    Limits = 2,
    Source = 3,
    Names = 4,
    Nodes = 5,
    Depth = 6,
    Nesting = 7,
}

impl Reason {
    // The number of the refusal.
    pub fn number(self) -> u8
        ensures { result ≡ reason_number self }
    {
        self as u8
    }
}
