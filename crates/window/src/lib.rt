#![tactic(auto)]
// Text written through a window: runs of bytes, XML escapes, decimal numbers.
ghost use Rattle.std.specs.Prelude.{◌≡◌, true, false, [], ◌∷◌, take, drop};
ghost use Rattle.chars.specs.Escape.{special as is_special, escape};
ghost use Rattle.chars.specs.Decimal.{decimal};
ghost use Rattle.window.specs.Page.{page_of, paint, stamp as stamp_of};
ghost use Rattle.window.specs.Plain.{any_special, plain_len, PlainTo, entity_of};

// How many bytes of the text are written, and which byte of it the buffer starts with.
#[derive(Clone, Copy)]
pub struct Window {
    pub at: usize,
    pub from: usize,
}

// The digits of a number: those of bytes from start on.
#[derive(Clone, Copy)]
pub struct Digits {
    pub bytes: [u8; 10],
    pub start: usize,
}

impl Window {
    // A run of bytes.
    pub fn put_run(&mut self, out: &mut [u8], run: &[u8])
        ensures { page_of self.new out.new ≡ paint (page_of self.old out.old) run.now }
    {
        match self.at.checked_add(run.len()) {
            Some(end) => {
                lay::lay_run(out, self.from, self.at, run);
                self.at = end;
            }
            None => self.put_each(out, run),
        }
    }

    // The first bytes of a text, by blocks of 16.
    pub fn put_front(&mut self, out: &mut [u8], s: &[u8], n: usize)
        ensures { page_of self.new out.new ≡ paint (page_of self.old out.old) (take n s.now) }
    {
        if self.from <= self.at && n <= s.len() && n <= usize::MAX - self.at {
            lay::lay_front(out, self.at - self.from, s, n);
            self.at += n;
        } else {
            self.put_run(out, parts::part(s, 0, n));
        }
    }

    // A text with its escapes; in an attribute's value the double quote too. Most short texts have none and are one run.
    pub fn escape_xml_with(&mut self, out: &mut [u8], s: &[u8], attr: bool)
        ensures { page_of self.new out.new ≡ paint (page_of self.old out.old) (escape attr s.now) }
    {
        if s.len() < 8 && plain_each(s, attr) == s.len() {
            self.put_run(out, s);
        } else {
            self.escape_runs(out, s, attr);
        }
    }

    pub fn escape_xml(&mut self, out: &mut [u8], s: &[u8])
        ensures { page_of self.new out.new ≡ paint (page_of self.old out.old) (escape false s.now) }
    {
        self.escape_xml_with(out, s, false);
    }

    pub fn escape_xml_attr(&mut self, out: &mut [u8], s: &[u8])
        ensures { page_of self.new out.new ≡ paint (page_of self.old out.old) (escape true s.now) }
    {
        self.escape_xml_with(out, s, true);
    }

    // A number in decimal digits.
    pub fn put_number(&mut self, out: &mut [u8], n: u32)
        ensures { page_of self.new out.new ≡ paint (page_of self.old out.old) (decimal n) }
    {
        self.put_run(out, digits_of(n).as_slice());
    }

    // One byte; the count stays at the largest number once it is reached.
    fn put(&mut self, out: &mut [u8], x: u8)
        ensures { page_of self.new out.new ≡ paint (page_of self.old out.old) (x ∷ []) }
    {
        stamp(out, self.from, self.at, x);
        self.at = self.at.saturating_add(1);
    }

    // A run at whose end the count may stay at the largest number.
    fn put_each(&mut self, out: &mut [u8], run: &[u8])
        ensures { page_of self.new out.new ≡ paint (page_of self.old out.old) run.now }
    {
        for x in run {
            self.put(out, *x);
        }
    }

    // A text with its escapes, run by run.
    fn escape_runs(&mut self, out: &mut [u8], s: &[u8], attr: bool)
        ensures { page_of self.new out.new ≡ paint (page_of self.old out.old) (escape attr s.now) }
    {
        let mut rest = s;
        loop {
            let (run, behind) = rest.split_at(plain_len(rest, attr));
            self.put_run(out, run);
            let Some((x, last)) = behind.split_first() else {
                return;
            };
            self.put_run(out, entity(*x));
            rest = last;
        }
    }
}

impl Digits {
    pub fn as_slice(&self) -> &[u8]
        ensures { result.now ≡ drop self.now.start self.now.bytes }
    {
        parts::from(&self.bytes, self.start)
    }
}

// Byte number `at` of the text, if the window has a place for it.
fn stamp(out: &mut [u8], from: usize, at: usize, x: u8)
    ensures { out.new ≡ stamp_of out.old from at x }
{
    if from <= at && at - from < out.len() {
        out[at - from] = x;
    }
}

// Whether a byte is written by name; with no branch, so that the bytes of a block are tested at once.
fn special(x: u8, attr: bool) -> bool
    ensures { result ≡ is_special attr x }
{
    (x == b'<') | (x == b'>') | (x == b'&') | (attr & (x == b'"'))
}

// The same with branches: letters and spaces fall out by the first two.
fn is_named(x: u8, attr: bool) -> bool
    ensures { result ≡ is_special attr x }
{
    matches!(x, b'"'..=b'>') && special(x, attr)
}

// Whether a text has such a byte.
fn any_special(s: &[u8], attr: bool) -> bool
    ensures { result ≡ any_special attr s.now }
{
    parts::any_byte(s, |x| special(x, attr))
}

// Where the whole blocks end that are written as they are.
fn plain_blocks(s: &[u8], attr: bool) -> usize
    ensures { PlainTo attr s.now result }
{
    parts::blocks_without(s, 16, 16, |b| any_special(b, attr))
}

// How many bytes from the front on are written as they are, one by one.
fn plain_each(s: &[u8], attr: bool) -> usize
    ensures { result ≡ plain_len attr s.now }
{
    s.iter().position(|x| is_named(*x, attr)).unwrap_or(s.len())
}

// The same by blocks, and the last ones singly.
fn plain_long(s: &[u8], attr: bool) -> usize
    ensures { result ≡ plain_len attr s.now }
{
    let i = plain_blocks(s, attr);
    i + plain_each(&s[i..], attr)
}

// How many bytes from the front on are written as they are: the first few singly, the others by blocks.
fn plain_len(s: &[u8], attr: bool) -> usize
    ensures { result ≡ plain_len attr s.now }
{
    let i = plain_each(parts::part(s, 0, 8), attr);
    if i < 8 {
        return i;
    }
    i + plain_long(&s[i..], attr)
}

// The name of a byte that has one.
#[tactic(auto, unfolding(crate::specs::Plain::entity_of))]
fn entity(x: u8) -> &'static [u8]
    ensures { result.now ≡ entity_of x }
{
    match x {
        b'<' => b"&lt;",
        b'>' => b"&gt;",
        b'&' => b"&amp;",
        _ => b"&quot;",
    }
}

// The decimal digits of a number.
pub fn digits_of(n: u32) -> Digits
    ensures { drop result.start result.bytes ≡ decimal n }
{
    let mut bytes = [b'0'; 10];
    let mut start = 9;
    let mut m = n;
    // A `while`: a turn for each digit but the first.
    while 10 <= m {
        bytes[start] = b'0' + (m % 10) as u8;
        start -= 1;
        m /= 10;
    }
    bytes[start] = b'0' + m as u8;
    Digits { bytes, start }
}
