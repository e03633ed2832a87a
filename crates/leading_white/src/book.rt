// A tape to be written, and what its texts are read by.
ghost use Rattle.tape.specs.File.{contents};
ghost use Rattle.leading_white.specs.Lean.{Solids};

use tape::TapeFile;

// A tape with a table of the solid bytes of its source; the texts that it gives live as long as the tape.
#[derive(Clone, Copy)]
pub struct Book<'a, 't> {
    pub tape: TapeFile<'a>,
    pub solids: &'t [u32],
    pub ghost tabled: { Solids (contents tape) solids.now },
}
