#![tactic(auto)]
// Runs of bytes laid over a lent buffer, as far as it reaches.
ghost use Rattle.std.specs.Prelude.{◌≡◌, ◌≤◌, ◌++◌, length, take, drop};
ghost use Rattle.parts.specs.Over.{lay, over};

// A run over the front of a part that is no shorter.
pub fn copy(run: &[u8], part: &mut [u8])
    requires { length run.now ≤ length part.old }
    ensures { part.new ≡ take (length run.now) run.now ++ drop (length run.now) part.old }
{
    part[..run.len()].copy_from_slice(run);
}

// A run over the buffer from a place on, as far as the buffer reaches.
fn lay_over(out: &mut [u8], start: usize, run: &[u8])
    ensures { out.new ≡ over out.old start run.now }
{
    if start < out.len() {
        let room = out.len() - start;
        let n = room.min(run.len());
        copy(&run[..n], &mut out[start..]);
    }
}

// A run whose first byte is number `at` of the text, where the window has a place for it.
pub fn lay_run(out: &mut [u8], from: usize, at: usize, run: &[u8])
    ensures { out.new ≡ lay out.old from at run.now }
{
    if from <= at {
        lay_over(out, at - from, run);
    } else {
        let skipped = from - at;
        if skipped < run.len() {
            lay_over(out, 0, &run[skipped..]);
        }
    }
}

// At most 16 bytes from a text's front over the buffer: a whole block, and what stood behind the bytes again.
fn lay_block(out: &mut [u8], start: usize, s: &[u8], n: usize)
    ensures { out.new ≡ over out.old start (take n s.now) }
{
    if 16 < n || s.len() < 16 || out.len() <= start || out.len() - start < 32 {
        lay_over(out, start, parts::part(s, 0, n));
        return;
    }
    let mut fresh = [0u8; 16];
    let mut saved = [0u8; 16];
    let b = start + n;
    copy(&s[..16], &mut fresh);
    copy(&out[b..b + 16], &mut saved);
    copy(&fresh, &mut out[start..start + 16]);
    copy(&saved, &mut out[b..b + 16]);
}

// A run over the buffer by blocks of 16, the last of which may reach back.
fn lay_long(out: &mut [u8], start: usize, run: &[u8])
    ensures { out.new ≡ over out.old start run.now }
{
    let n = run.len();
    if n < 16 || out.len() <= start || out.len() - start < n {
        lay_over(out, start, run);
        return;
    }
    let mut i = 0;
    // A `while`: a `for` over the number of blocks was slower.
    while 16 <= n - i {
        let b = start + i;
        let mut fresh = [0u8; 16];
        copy(&run[i..i + 16], &mut fresh);
        copy(&fresh, &mut out[b..b + 16]);
        i += 16;
    }
    let b = start + (n - 16);
    let mut last = [0u8; 16];
    copy(&run[n - 16..], &mut last);
    copy(&last, &mut out[b..b + 16]);
}

// A text's first bytes over the buffer, by blocks of 16.
pub fn lay_front(out: &mut [u8], start: usize, s: &[u8], n: usize)
    ensures { out.new ≡ over out.old start (take n s.now) }
{
    if out.len() <= start {
        return;
    }
    if n <= 16 {
        lay_block(out, start, s, n);
    } else {
        lay_long(out, start, parts::part(s, 0, n));
    }
}
