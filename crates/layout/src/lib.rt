#![tactic(auto)]
// Where a tape that is written step by step stands in a lent buffer: header and Root, the source, free bytes, the nodes turned around, the entries, the names.
ghost use Rattle.std.specs.Prelude.{◌≡◌, [], ◌++◌, ◌+◌, ◌-◌, ◌*◌, ◌≤◌, ◌<◌, min as least, length, take, drop, replicate};
ghost use Rattle.std.specs.Prelude.{reverse};
ghost use Rattle.parts.specs.Bytes.{part};
ghost use Rattle.admit.specs.Encode.{four};
ghost use Rattle.layout.specs.Bytes.{over, reversed, exchange, node_bytes_of, entry_bytes};
ghost use Rattle.layout.specs.Layout.{Fits, file_len, nodes_at, entries_at, link_at, held_in, head_of, free_of, laid, top_of, file_of, behind_of};
ghost use Rattle.layout.specs.Steps.{push, pour, enter, link, outer};

use tape::{Entry, Node};

// A state of writing: the phase, the counts of what is added so far, the innermost open container (0 for none) and how many are open.
#[derive(Clone, Copy)]
pub struct Writer {
    // A number and no enum: the definitions of states (`state_of`, `limited`, `phase_in_of`) are over numbers, and C may hand in any.
    pub phase: u8,
    pub nodes: usize,
    pub entries: usize,
    pub names: usize,
    pub source: usize,
    pub inner: usize,
    pub depth: usize,
}

impl Writer {
    pub const BEFORE_START: u8 = 0;

    pub const AT_WORK: u8 = 1;

    pub const FINISHED: u8 = 2;
}

// ---- storing

// A run over the buffer from a place on.
fn lay(buf: &mut [u8], at: usize, run: &[u8])
    requires { at + length run.now ≤ length buf.old }
    ensures { buf.new ≡ over buf.old at run.now }
{
    lay::copy(run, &mut buf[at..]);
}

// So many bytes moved down.
fn slide(buf: &mut [u8], from: usize, to: usize, len: usize)
    requires { (to ≤ from) × (from + len ≤ length buf.old) }
    ensures { buf.new ≡ over buf.old to (part buf.old from len) }
{
    buf.copy_within(from..from + len, to);
}

// Zeros from a place to the end.
fn blank(buf: &mut [u8], from: usize)
    requires { from ≤ length buf.old }
    ensures { buf.new ≡ over buf.old from (replicate (length buf.old - from) 0) }
{
    buf[from..].fill(0);
}

// The part from one place to another turned around.
fn reverse(buf: &mut [u8], from: usize, to: usize)
    requires ordered { from ≤ to }
    requires within { to ≤ length buf.old }
    ensures { buf.new ≡ reversed buf.old from to }
{
    buf[from..to].reverse();
}

// Two neighbouring parts exchanged.
fn rotate(buf: &mut [u8], lo: usize, mid: usize, hi: usize)
    requires { (lo ≤ mid) × (mid ≤ hi) × (hi ≤ length buf.old) }
    ensures { buf.new ≡ exchange buf.old lo mid hi }
{
    buf[lo..hi].rotate_left(mid - lo);
}

// ---- the bytes of numbers, nodes and entries

// The four bytes of a number.
fn word(x: u32) -> [u8; 4]
    ensures { result ≡ four x }
{
    x.to_le_bytes()
}

// The same turned around.
fn drow(x: u32) -> [u8; 4]
    ensures { result ≡ reverse (four x) }
{
    x.to_be_bytes()
}

// The bytes of a node, turned around.
fn turned(node: Node) -> [u8; 16]
    ensures { result ≡ reverse (node_bytes_of node) }
{
    let [n3, n2, n1, n0] = drow(node.len);
    let [s3, s2, s1, s0] = drow(node.start);
    let [l3, l2, l1, l0] = drow(node.link);
    let [m1, m0] = node.marker.to_be_bytes();
    [
        n3,
        n2,
        n1,
        n0,
        s3,
        s2,
        s1,
        s0,
        l3,
        l2,
        l1,
        l0,
        m1,
        m0,
        node.flags.bits,
        node.kind.code,
    ]
}

// The bytes of an entry.
fn cells(e: Entry) -> [u8; 8]
    ensures { result ≡ entry_bytes e }
{
    let [s0, s1, s2, s3] = word(e.start);
    let [n0, n1] = e.len.to_le_bytes();
    [s0, s1, s2, s3, n0, n1, e.category.code, e.element.code]
}

// ---- nodes

// Where the nodes begin.
fn nodes_at(w: Writer, n: usize) -> usize
    requires { Fits w n }
    ensures { result ≡ nodes_at w n }
{
    n - (16 * w.nodes + 8 * w.entries + w.names)
}

// One node more.
pub fn add(w: Writer, buf: &mut [u8], node: Node)
    requires fits { Fits w (length buf.old) }
    requires w_in_bounds { file_len w + 16 ≤ length buf.old }
    ensures { buf.new ≡ laid (head_of buf.old) (push (held_in w buf.old) node)
        (take (length (free_of w buf.old) - 16) (free_of w buf.old)) }
{
    let at = nodes_at(w, buf.len()) - 16;
    let bytes = turned(node);
    lay(buf, at, &bytes);
}

// Where the link of the innermost open container stands, turned around.
fn link_place(w: Writer, n: usize) -> usize
    requires fits { Fits w n }
    requires inner_nonzero { 0 < w.inner }
    ensures { result ≡ entries_at w n - (link_at w.inner + 4) }
{
    n - (8 * w.entries + w.names) - (16 * (w.inner - 1) + 8)
}

// The container around the innermost open one.
fn around(w: Writer, buf: &[u8]) -> usize
    requires fits { Fits w (length buf.now) }
    requires inner_nonzero { 0 < w.inner }
    ensures { result ≡ outer (held_in w buf.now) w.inner }
{
    let p = link_place(w, buf.len());
    u32::from_be_bytes([buf[p], buf[p + 1], buf[p + 2], buf[p + 3]]) as usize
}

// The innermost open container linked to a node.
fn tie(w: Writer, buf: &mut [u8], to: u32)
    requires fits { Fits w (length buf.old) }
    requires inner_nonzero { 0 < w.inner }
    ensures { buf.new ≡ laid (head_of buf.old) (link (held_in w buf.old) w.inner to) (free_of w buf.old) }
{
    let bytes = drow(to);
    let p = link_place(w, buf.len());
    lay(buf, p, &bytes);
}

// The innermost open container linked to the node that closes it, and that node added; the container around it.
pub fn shut(w: Writer, buf: &mut [u8], node: Node) -> usize
    requires fits { Fits w (length buf.old) }
    requires w_in_bounds { (file_len w + 16 ≤ length buf.old) × (0 < w.inner) }
    ensures buf_after { buf.new ≡ laid (head_of buf.old) (push (link (held_in w buf.old) w.inner (w.nodes + 1)) node)
        (take (length (free_of w buf.old) - 16) (free_of w buf.old)) }
    ensures value { result ≡ outer (held_in w buf.old) w.inner }
{
    let to = (w.nodes + 1) as u32;
    let inner = around(w, buf);
    tie(w, buf, to);
    add(w, buf, node);
    inner
}

// ---- source and entries

// A source piece more.
pub fn flow(w: Writer, buf: &mut [u8], piece: &[u8])
    requires fits { Fits w (length buf.old) }
    requires piece_in_bounds { file_len w + length piece.now ≤ length buf.old }
    ensures { buf.new ≡ laid (head_of buf.old) (pour (held_in w buf.old) piece.now)
        (drop (length piece.now) (free_of w buf.old)) }
{
    lay(buf, 52 + w.source, piece);
}

// What stands from `at` to `behind` exchanged with what follows, and then what stands from `m` to `e` with the 8 bytes that follow.
fn settle(buf: &mut [u8], at: usize, behind: usize, m: usize, e: usize)
    requires { (at ≤ behind) × (behind ≤ length buf.old) × (m ≤ e) × (e + 8 ≤ length buf.old) }
    ensures { buf.new ≡ exchange (exchange buf.old at behind (length buf.old)) m e (e + 8) }
{
    let n = buf.len();
    let z = e + 8;
    rotate(buf, at, behind, n);
    rotate(buf, m, e, z);
}

// The bytes of an entry and of its name, laid in front of the entries and exchanged with what stands behind them.
fn insert(w: Writer, buf: &mut [u8], entry: &[u8; 8], name: &[u8])
    requires fits { Fits w (length buf.old) }
    requires nodes_value { w.nodes ≡ 0 }
    requires name_in_bounds { file_len w + 8 + length name.now ≤ length buf.old }
    ensures { buf.new ≡ laid (head_of buf.old) (enter (held_in w buf.old) entry.now name.now)
        (take (length (free_of w buf.old) - (8 + length name.now)) (free_of w buf.old)) }
{
    let n = buf.len();
    let more = 8 + name.len();
    let at = n - (8 * w.entries + w.names) - more;
    let behind = at + more;
    let m = at + 8 * w.entries;
    let e = m + w.names;
    lay(buf, at, entry);
    lay(buf, at + 8, name);
    settle(buf, at, behind, m, e);
}

// An entry more, with name bytes.
pub fn enroll(w: Writer, buf: &mut [u8], name: &[u8], e: Entry)
    requires fits { Fits w (length buf.old) }
    requires nodes_value { (w.nodes ≡ 0) × (file_len w + 8 + length name.now ≤ length buf.old) }
    ensures { buf.new ≡ laid (head_of buf.old) (enter (held_in w buf.old) (entry_bytes e) name.now)
        (take (length (free_of w buf.old) - (8 + length name.now)) (free_of w buf.old)) }
{
    let bytes = cells(e);
    insert(w, buf, &bytes, name);
}

// ---- the finished file

// Header and Root.
fn top(w: Writer) -> [u8; 52]
    requires { (w.nodes < 262144) × (w.entries ≤ 1024) × (w.names ≤ 16384) × (w.source ≤ 4194304) }
    ensures { result ≡ top_of w }
{
    let n = (w.nodes + 1) as u32;
    let e = w.entries as u32;
    let m = w.names as u32;
    let s = w.source as u32;
    let a = word(n);
    let b = word(e);
    let c = word(36 + 16 * n);
    let d = word(m);
    let f = word(36 + 16 * n + 8 * e);
    let g = word(s);
    let h = word(36 + 16 * n + 8 * e + m);
    [
        1, 0, 0, 0, a[0], a[1], a[2], a[3], 36, 0, 0, 0, b[0], b[1], b[2], b[3], c[0], c[1], c[2],
        c[3], d[0], d[1], d[2], d[3], f[0], f[1], f[2], f[3], g[0], g[1], g[2], g[3], h[0], h[1],
        h[2], h[3], 0, 1, 255, 255, a[0], a[1], a[2], a[3], 0, 0, 0, 0, 0, 0, 0, 0,
    ]
}

// Nodes, entries and names moved down to the source, and zeros where they stood.
fn gather(w: Writer, buf: &mut [u8])
    requires { Fits w (length buf.old) }
    ensures { buf.new ≡ laid (head_of buf.old) (held_in w buf.old) [] ++ behind_of w (free_of w buf.old) }
{
    let n = buf.len();
    let tail = 16 * w.nodes + 8 * w.entries + w.names;
    let to = 52 + w.source;
    let from = n - tail;
    let left = (from - to).min(tail);
    slide(buf, from, to, tail);
    blank(buf, n - left);
}

// Source, turned nodes and tables from 52 to `end` put in their order: nodes to `at`, tables to `source`, the source.
fn turn_over(buf: &mut [u8], table: usize, at: usize, source: usize, end: usize)
    requires { (52 + table ≤ end) × (at ≤ source) × (source ≤ end) × (end ≤ length buf.old) }
    ensures { buf.new ≡ reversed (reversed (reversed buf.old 52 (end - table)) at end) at source }
{
    reverse(buf, 52, end - table);
    reverse(buf, at, end);
    reverse(buf, at, source);
}

// The file at the buffer's front.
pub fn close_up(w: Writer, buf: &mut [u8])
    requires { Fits w (length buf.old) }
    ensures { buf.new ≡ file_of w (held_in w buf.old) ++ behind_of w (free_of w buf.old) }
{
    gather(w, buf);
    let table = 8 * w.entries + w.names;
    let at = 52 + 16 * w.nodes;
    let source = at + table;
    turn_over(buf, table, at, source, source + w.source);
    let bytes = top(w);
    lay(buf, 0, &bytes);
}
