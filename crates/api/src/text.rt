// The text of a tape, a window of it, a finished text, the names of a tape, for C: over a lent buffer and lent numbers.
ghost use Rattle.events.specs.Text.{outcome};
ghost use Rattle.usx.specs.Shown.{view};
ghost use Rattle.told.specs.Told.{Checked, Named};
ghost use Rattle.told_texts.specs.Told.{Wrote, Showed};

// Writes the USX text of a tape file at the front of a buffer. Gives document 01's number, 0 where it is written; of the numbers 0 becomes the text's
// length, also where 8 says that it is more than there is room for, and 0 where the file is refused.
#[unsafe(no_mangle)]
pub extern "C" fn andelura_serialize(file: &[u8], out: &mut [u8], numbers: &mut [u64]) -> u32
    ensures { Wrote (outcome file.now out.old) numbers.old result numbers.new out.new }
{
    told_texts::serialize(file, out, numbers)
}

// Shows the bytes of a tape file's text from one on, as many as the buffer has room for. Gives document 01's number, 0 where they are shown; of the numbers
// 0 becomes how many bytes are shown and 1 how long the whole text is.
#[unsafe(no_mangle)]
pub extern "C" fn andelura_window(
    file: &[u8],
    from: usize,
    out: &mut [u8],
    numbers: &mut [u64],
) -> u32
    ensures { Showed (view file.now from out.old) numbers.old result numbers.new out.new }
{
    told_texts::window(file, from, out, numbers)
}

// Checks a finished text. Gives document 01's number, 0 where it is accepted; of the numbers 0 becomes how many chapters start and 1 how many verses, both 0
// where the text is refused; 2 how many bytes stand before the place where the rule broke and 3 the line of that place, both 0 where it is accepted.
#[unsafe(no_mangle)]
pub extern "C" fn andelura_check(text: &[u8], numbers: &mut [u64]) -> u32
    ensures { Checked text.now numbers.old result numbers.new }
{
    told::check(text, numbers)
}

// Looks for the first name of a tape file that breaks the proviso. Gives document 01's number, 0 where the file is admitted; of the numbers 0 becomes what the
// name is (1 book code, 2 label, 3 marker name, 4 key), 1 its node, 2 its first byte of the source, 3 how many bytes it has and 4 its line of the source; all
// become 0 where every name is kept, or the file is refused.
#[unsafe(no_mangle)]
pub extern "C" fn andelura_find_names(file: &[u8], numbers: &mut [u64]) -> u32
    ensures { Named file.now numbers.old result numbers.new }
{
    told::find_names(file, numbers)
}
