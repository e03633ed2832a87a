#![tactic(auto)]
// Turns along a list of inline children that enter no marker: texts, verses, and what is passed over.
ghost use Rattle.std.specs.Prelude.{◌≡◌, Bool, true, not, ◌&&◌, List, ℕ, ◌+◌, ◌<◌, eqb, Some};
ghost use Rattle.parts.specs.Bytes.{Bytes};
ghost use Rattle.texts.specs.Text.{ends_white, normalize_text};
ghost use Rattle.tape.specs.File.{contents, Tape, text_at_of};
ghost use Rattle.tape.specs.Tree.{next_sibling, walk_from, left};
ghost use Rattle.leading_white.specs.Lean.{lean};
ghost use Rattle.render.specs.Follow.{next_solid_of, inline_at_of, Kept};
ghost use Rattle.events.specs.Event.{Event};
ghost use Rattle.events.specs.Walk.{normalized, inline_all, note_text, note_all};
ghost use Rattle.events.specs.Emit.{emit_all};
ghost use Rattle.desk.specs.Desk.{desk_of};
ghost use Rattle.lists.specs.Span.{nodes_in};
ghost use Rattle.inline_turns.specs.Turn.{sort_of, sort_in_of, note_sort_of, plain_from, note_plain, next_by, trim_by, note_trim_by, KeptAt, kept_past, kept_behind_of, kept_by, note_kept_by, behind_of, learnt, follows_by, behind_text, behind_by, note_behind_by, Here};
ghost use Rattle.inline_turns.specs.declared.Child.TheVariants.{Anchor, Words};

use desk::Desk;
use leading_white::{Book, lean_of, lean_text};
use lists::{Member, Span, fold_in, member_of};
use tape::{Cursor, Kind, TapeFile};
use texts::Normalized;

// A child that no marker is entered for: left out, a verse, a text, or passed over.
#[derive(Clone, Copy, PartialEq, Eq)]
pub enum Child {
    Skipped,
    Anchor,
    Words,
    Passed,
}

// What a child is to its list: the list ends, a marker is entered, or none is.
#[derive(Clone, Copy, PartialEq, Eq)]
pub enum Sort {
    End,
    Enter,
    Plain(Child),
}

// Whether inline content follows the parent of a list: asked where it is needed, and kept for the list.
#[derive(Clone, Copy, PartialEq, Eq)]
pub enum Behind {
    Unasked,
    Follows,
    Ends,
}

// Where a walk along a list stands: whether a text loses its leading space, what is known of the parent, the solid sibling that was kept, the next node.
#[derive(Clone, Copy)]
pub struct Going {
    pub trim: bool,
    pub behind: Behind,
    pub kept: Option<Cursor>,
    pub next: Option<Cursor>,
}

// What stands behind a text: whether inline content follows it, what is known of the parent, and the solid sibling to keep.
#[derive(Clone, Copy)]
struct Waited {
    follows: bool,
    behind: Behind,
    kept: Option<Cursor>,
}

// A text as it is normalized, what is known of the parent, and the solid sibling to keep.
#[derive(Clone, Copy)]
struct Looked {
    text: Normalized,
    behind: Behind,
    kept: Option<Cursor>,
}

// What a child is to its list by its kind.
#[tactic(auto, unfolding(crate::specs::Turn::sort_of))]
fn sort_of(kind: Kind) -> Sort
    ensures { result ≡ sort_of kind.code }
{
    match kind.code {
        Kind::VERSE => Sort::Plain(Child::Anchor),
        Kind::TEXT => Sort::Plain(Child::Words),
        Kind::ATTRIBUTE | Kind::ERROR => Sort::Plain(Child::Passed),
        _ => Sort::Enter,
    }
}

// What a child is to a list that may be cut or filtered.
#[tactic(auto, using(crate::proofs::Sorts::in_all, crate::proofs::Sorts::in_end, crate::proofs::Sorts::in_skipped, crate::proofs::Sorts::in_listed))]
pub fn sort_in(tape: &TapeFile<'_>, span: Span, c: Cursor) -> Sort
    ensures { result ≡ sort_in_of (contents tape.now) span c.at }
{
    // Most lists are neither cut nor filtered.
    if !(span.cut | span.sifted) {
        return sort_of(c.kind(tape));
    }
    match member_of(tape, span, c) {
        Member::End => Sort::End,
        Member::Skipped => Sort::Plain(Child::Skipped),
        Member::Listed => sort_of(c.kind(tape)),
    }
}

// What a child is to a note.
#[tactic(auto, unfolding(crate::specs::Turn::note_sort_of))]
pub fn note_sort(tape: &TapeFile<'_>, c: Cursor) -> Sort
    ensures { result ≡ note_sort_of (contents tape.now) c.at }
{
    if render::is_category_marker(tape, c) {
        return Sort::Plain(Child::Skipped);
    }
    match c.kind(tape).code {
        Kind::TEXT => Sort::Plain(Child::Words),
        Kind::ATTRIBUTE | Kind::ERROR => Sort::Plain(Child::Passed),
        _ => Sort::Enter,
    }
}

// What was kept at a child, for the sibling behind it.
#[tactic(auto, using(crate::proofs::Laws::past_done, crate::proofs::Laws::past_far), unfolding(crate::specs::Turn::kept_past))]
fn past(kept: Option<Cursor>, c: Cursor, next: Option<Cursor>) -> Option<Cursor>
    ensures kept_at { (t : Tape) → Kept t c kept → next ≡ next_sibling t c.at → KeptAt t next result }
    ensures value { result ≡ kept_past kept c.at next }
{
    match kept {
        Some(d) if d.at == c.at => next,
        _ => kept,
    }
}

// Whether inline content follows the parent, asked unless it is known.
#[tactic(auto, unfolding(crate::specs::Turn::learnt, crate::specs::Turn::behind_of))]
pub fn ask(book: &Book<'_, '_>, parent: Cursor, outer: bool, behind: Behind) -> Behind
    ensures { result ≡ learnt (behind_of (contents book.now.tape) parent outer behind) }
{
    match behind {
        Behind::Follows => Behind::Follows,
        Behind::Ends => Behind::Ends,
        Behind::Unasked => {
            if render::followed(book, parent, outer) {
                Behind::Follows
            } else {
                Behind::Ends
            }
        }
    }
}

// What was learnt.
#[tactic(auto, unfolding(crate::specs::Turn::follows_by))]
pub fn follows(behind: Behind) -> bool
    ensures { result ≡ follows_by behind }
{
    matches!(behind, Behind::Follows)
}

// Looks behind a text: what follows it, and then what follows the parent, is looked for only where the text ends with white space.
fn wait(
    book: &Book<'_, '_>,
    parent: Cursor,
    outer: bool,
    c: Cursor,
    ends: bool,
    behind: Behind,
    kept: Option<Cursor>,
    next: Option<Cursor>,
) -> Waited
    ensures follows_value { (s : Bytes) (trim : Bool) → ends ≡ ends_white s → Kept (contents book.now.tape) c kept → normalize_text s (not trim) result.follows ≡ normalized (contents book.now.tape) c.at s trim (behind_of (contents book.now.tape) parent outer behind) }
    ensures kept_at { Kept (contents book.now.tape) c kept → next ≡ next_sibling (contents book.now.tape) c.at → KeptAt (contents book.now.tape) next result.kept }
    ensures kept_value { (s : Bytes) → ends ≡ ends_white s → Kept (contents book.now.tape) c kept → result.kept ≡ kept_behind_of (contents book.now.tape) s kept c.at next }
    ensures behind_value { (s : Bytes) → ends ≡ ends_white s → Kept (contents book.now.tape) c kept → result.behind ≡ behind_text (contents book.now.tape) parent outer behind c.at s }
{
    if ends {
        let solid = render::solid_behind(book, c, kept);
        if render::inline_at(&book.tape, solid) {
            return Waited {
                follows: true,
                behind,
                kept: solid,
            };
        }
        let asked = ask(book, parent, outer, behind);
        return Waited {
            follows: follows(asked),
            behind: asked,
            kept: solid,
        };
    }
    Waited {
        follows: false,
        behind,
        kept: past(kept, c, next),
    }
}

// Whether a look tells that a step leads to a node that runs inside text and is not passed over.
#[tactic(auto, using(render::proofs::Follows::clear_none, crate::proofs::Laws::runs_done, crate::proofs::Laws::runs_solid, crate::proofs::Laws::runs_inline))]
fn runs_at(tape: &TapeFile<'_>, next: Option<Cursor>) -> bool
    ensures k_value { result ≡ true → (k : ℕ) → next ≡ next_sibling (contents tape.now) k → next_solid_of (contents tape.now) k ≡ next }
    ensures next_value { result ≡ true → inline_at_of (contents tape.now) next ≡ true }
{
    match next {
        None => false,
        Some(d) => render::runs_on(tape, d),
    }
}

// Looks behind a text; most that end with white space are followed at once by a char.
fn glance(
    book: &Book<'_, '_>,
    parent: Cursor,
    outer: bool,
    c: Cursor,
    ends: bool,
    behind: Behind,
    kept: Option<Cursor>,
    next: Option<Cursor>,
) -> Waited
    ensures follows_value { next ≡ next_sibling (contents book.now.tape) c.at → (s : Bytes) (trim : Bool) → ends ≡ ends_white s → Kept (contents book.now.tape) c kept → normalize_text s (not trim) result.follows ≡ normalized (contents book.now.tape) c.at s trim (behind_of (contents book.now.tape) parent outer behind) }
    ensures kept_at { Kept (contents book.now.tape) c kept → next ≡ next_sibling (contents book.now.tape) c.at → KeptAt (contents book.now.tape) next result.kept }
    ensures kept_value { next ≡ next_sibling (contents book.now.tape) c.at → (s : Bytes) → ends ≡ ends_white s → Kept (contents book.now.tape) c kept → result.kept ≡ kept_behind_of (contents book.now.tape) s kept c.at next }
    ensures behind_value { next ≡ next_sibling (contents book.now.tape) c.at → (s : Bytes) → ends ≡ ends_white s → Kept (contents book.now.tape) c kept → result.behind ≡ behind_text (contents book.now.tape) parent outer behind c.at s }
{
    if ends {
        if runs_at(&book.tape, next) {
            return Waited {
                follows: true,
                behind,
                kept: next,
            };
        }
    }
    wait(book, parent, outer, c, ends, behind, kept, next)
}

// A text as it is normalized, with what was looked for behind it.
#[tactic(auto, using(crate::proofs::Laws::looked_text, crate::proofs::Laws::looked_kept, crate::proofs::Laws::looked_known))]
fn look(
    book: &Book<'_, '_>,
    parent: Cursor,
    outer: bool,
    c: Cursor,
    s: &[u8],
    trim: bool,
    behind: Behind,
    kept: Option<Cursor>,
    next: Option<Cursor>,
) -> Looked
    ensures text_value { Kept (contents book.now.tape) c kept → result.text ≡ normalized (contents book.now.tape) c.at s.now trim (behind_of (contents book.now.tape) parent outer behind) }
    ensures kept_at { Kept (contents book.now.tape) c kept → next ≡ next_sibling (contents book.now.tape) c.at → KeptAt (contents book.now.tape) next result.kept }
    ensures kept_value { Kept (contents book.now.tape) c kept → result.kept ≡ kept_behind_of (contents book.now.tape) s.now kept c.at next }
    ensures behind_value { Kept (contents book.now.tape) c kept → result.behind ≡ behind_text (contents book.now.tape) parent outer behind c.at s.now }
{
    let ends = texts::ends_white(s);
    let w = wait(book, parent, outer, c, ends, behind, kept, next);
    Looked {
        text: texts::normalize_text(s, !trim, w.follows),
        behind: w.behind,
        kept: w.kept,
    }
}

// Whether a text behind this one still loses its leading space.
fn still(trim: bool, n: Normalized) -> bool
    ensures { result ≡ trim && not n.shows }
{
    trim && !n.shows
}

// A text of a list, made lean and read from its front.
fn worded_turn(
    book: &Book<'_, '_>,
    parent: Cursor,
    outer: bool,
    c: Cursor,
    trim: bool,
    behind: Behind,
    kept: Option<Cursor>,
    desk: &mut Desk,
    out: &mut [u8],
) -> Going
    ensures ks_after { Kept (contents book.now.tape) c kept → (node : ℕ → Bool → List Event) (ks : List ℕ) → emit_all (desk_of (contents book.now.tape).source desk.new out.new) (inline_all node (contents book.now.tape) (behind_of (contents book.now.tape) parent outer behind) result.trim ks) ≡ emit_all (desk_of (contents book.now.tape).source desk.old out.old) (plain_from node (contents book.now.tape) (behind_of (contents book.now.tape) parent outer behind) trim c.at ks Words) }
    ensures kept_at { Kept (contents book.now.tape) c kept → KeptAt (contents book.now.tape) result.next result.kept }
    ensures next_value { result.next ≡ next_sibling (contents book.now.tape) c.at }
    ensures trim_value { Kept (contents book.now.tape) c kept → result.trim ≡ trim_by (contents book.now.tape) (behind_of (contents book.now.tape) parent outer behind) trim c.at Words }
    ensures kept_value { Kept (contents book.now.tape) c kept → result.kept ≡ kept_behind_of (contents book.now.tape) (text_at_of (contents book.now.tape) c.at) kept c.at result.next }
    ensures behind_value { Kept (contents book.now.tape) c kept → result.behind ≡ behind_text (contents book.now.tape) parent outer behind c.at (text_at_of (contents book.now.tape) c.at) }
{
    let next = c.next_sibling(&book.tape);
    let s = lean_text(book, c);
    let l = look(book, parent, outer, c, s, trim, behind, kept, next);
    let n = l.text;
    put_texts::put_broken(s, n, desk, out);
    Going {
        trim: still(trim, n),
        behind: l.behind,
        kept: l.kept,
        next,
    }
}

// A text of a list that is told by its frame.
fn framed_turn(
    book: &Book<'_, '_>,
    parent: Cursor,
    outer: bool,
    c: Cursor,
    trim: bool,
    behind: Behind,
    kept: Option<Cursor>,
    next: Option<Cursor>,
    tail: &[u8],
    front: usize,
    len: usize,
    ends: bool,
    desk: &mut Desk,
    out: &mut [u8],
) -> Going
    ensures ks_after { next ≡ next_sibling (contents book.now.tape) c.at → Here (contents book.now.tape) c.at tail.now (record { front = front; len = len; ends = ends }) → Kept (contents book.now.tape) c kept → (node : ℕ → Bool → List Event) (ks : List ℕ) → emit_all (desk_of (contents book.now.tape).source desk.new out.new) (inline_all node (contents book.now.tape) (behind_of (contents book.now.tape) parent outer behind) result.trim ks) ≡ emit_all (desk_of (contents book.now.tape).source desk.old out.old) (plain_from node (contents book.now.tape) (behind_of (contents book.now.tape) parent outer behind) trim c.at ks Words) }
    ensures kept_at { Here (contents book.now.tape) c.at tail.now (record { front = front; len = len; ends = ends }) → Kept (contents book.now.tape) c kept → next ≡ next_sibling (contents book.now.tape) c.at → KeptAt (contents book.now.tape) result.next result.kept }
    ensures next_value { result.next ≡ next }
    ensures trim_value { next ≡ next_sibling (contents book.now.tape) c.at → Here (contents book.now.tape) c.at tail.now (record { front = front; len = len; ends = ends }) → Kept (contents book.now.tape) c kept → result.trim ≡ trim_by (contents book.now.tape) (behind_of (contents book.now.tape) parent outer behind) trim c.at Words }
    ensures kept_value { next ≡ next_sibling (contents book.now.tape) c.at → Here (contents book.now.tape) c.at tail.now (record { front = front; len = len; ends = ends }) → Kept (contents book.now.tape) c kept → result.kept ≡ kept_behind_of (contents book.now.tape) (text_at_of (contents book.now.tape) c.at) kept c.at result.next }
    ensures behind_value { next ≡ next_sibling (contents book.now.tape) c.at → Here (contents book.now.tape) c.at tail.now (record { front = front; len = len; ends = ends }) → Kept (contents book.now.tape) c kept → result.behind ≡ behind_text (contents book.now.tape) parent outer behind c.at (text_at_of (contents book.now.tape) c.at) }
{
    let w = glance(book, parent, outer, c, ends, behind, kept, next);
    let n = put_body::framed_text(front, len, ends, !trim, w.follows);
    put_texts::put_framed(tail, front, len, n, desk, out);
    Going {
        trim: still(trim, n),
        behind: w.behind,
        kept: w.kept,
        next,
    }
}

// A text of a list.
fn words_turn(
    book: &Book<'_, '_>,
    parent: Cursor,
    outer: bool,
    c: Cursor,
    trim: bool,
    behind: Behind,
    kept: Option<Cursor>,
    desk: &mut Desk,
    out: &mut [u8],
) -> Going
    ensures ks_after { Kept (contents book.now.tape) c kept → (node : ℕ → Bool → List Event) (ks : List ℕ) → emit_all (desk_of (contents book.now.tape).source desk.new out.new) (inline_all node (contents book.now.tape) (behind_of (contents book.now.tape) parent outer behind) result.trim ks) ≡ emit_all (desk_of (contents book.now.tape).source desk.old out.old) (plain_from node (contents book.now.tape) (behind_of (contents book.now.tape) parent outer behind) trim c.at ks Words) }
    ensures kept_at { Kept (contents book.now.tape) c kept → KeptAt (contents book.now.tape) result.next result.kept }
    ensures next_value { result.next ≡ next_sibling (contents book.now.tape) c.at }
    ensures trim_value { Kept (contents book.now.tape) c kept → result.trim ≡ trim_by (contents book.now.tape) (behind_of (contents book.now.tape) parent outer behind) trim c.at Words }
    ensures kept_value { Kept (contents book.now.tape) c kept → result.kept ≡ kept_behind_of (contents book.now.tape) (text_at_of (contents book.now.tape) c.at) kept c.at result.next }
    ensures behind_value { Kept (contents book.now.tape) c kept → result.behind ≡ behind_text (contents book.now.tape) parent outer behind c.at (text_at_of (contents book.now.tape) c.at) }
{
    let tail = c.tail(&book.tape);
    let size = c.size(&book.tape);
    let front = put_body::white_front(tail, size);
    let back = put_body::white_back(tail, front, size);
    let len = size - front - back;
    if put_body::is_framed(tail, size, front, len) {
        let next = c.next_sibling(&book.tape);
        return framed_turn(
            book,
            parent,
            outer,
            c,
            trim,
            behind,
            kept,
            next,
            tail,
            front,
            len,
            0 < back,
            desk,
            out,
        );
    }
    worded_turn(book, parent, outer, c, trim, behind, kept, desk, out)
}

// A verse of a list, with the numbers behind it.
fn anchor_turn(
    book: &Book<'_, '_>,
    span: Span,
    c: Cursor,
    behind: Behind,
    desk: &mut Desk,
    out: &mut [u8],
) -> Going
    ensures by_index { (node : ℕ → Bool → List Event) (follows trim : Bool) → emit_all (desk_of (contents book.now.tape).source desk.new out.new) (inline_all node (contents book.now.tape) follows result.trim (nodes_in (contents book.now.tape) span result.next)) ≡ emit_all (desk_of (contents book.now.tape).source desk.old out.old) (plain_from node (contents book.now.tape) follows trim c.at (nodes_in (contents book.now.tape) span (next_sibling (contents book.now.tape) c.at)) Anchor) }
    ensures kept_at { KeptAt (contents book.now.tape) result.next result.kept }
    ensures next_bound { left (contents book.now.tape) result.next < left (contents book.now.tape) (Some c) }
    ensures next_value { result.next ≡ next_by (contents book.now.tape) span c.at Anchor }
    ensures trim_value { result.trim ≡ true }
    ensures kept_value { result.kept ≡ result.next }
    ensures behind_value { result.behind ≡ behind }
{
    let f = fold_in(
        book,
        span,
        Kind::new(Kind::VERSE),
        c.next_sibling(&book.tape),
    );
    put_chapters::verse(&book.tape, c, f.alt, f.published, desk, out);
    Going {
        trim: true,
        behind,
        kept: f.rest,
        next: f.rest,
    }
}

// A child that writes nothing.
#[tactic(auto, using(crate::proofs::Laws::passed_kept))]
fn passed_turn(
    tape: &TapeFile<'_>,
    c: Cursor,
    trim: bool,
    behind: Behind,
    kept: Option<Cursor>,
) -> Going
    ensures trim_value { result.trim ≡ trim }
    ensures behind_value { result.behind ≡ behind }
    ensures kept_at { Kept (contents tape.now) c kept → KeptAt (contents tape.now) result.next result.kept }
    ensures next_value { result.next ≡ next_sibling (contents tape.now) c.at }
    ensures kept_value { result.kept ≡ kept_past kept c.at result.next }
{
    let next = c.next_sibling(tape);
    Going {
        trim,
        behind,
        kept: past(kept, c, next),
        next,
    }
}

// A turn along a list that enters no marker.
pub fn plain_turn(
    book: &Book<'_, '_>,
    span: Span,
    parent: Cursor,
    outer: bool,
    c: Cursor,
    child: Child,
    trim: bool,
    behind: Behind,
    kept: Option<Cursor>,
    desk: &mut Desk,
    out: &mut [u8],
) -> Going
    ensures next_after { Kept (contents book.now.tape) c kept → (node : ℕ → Bool → List Event) → emit_all (desk_of (contents book.now.tape).source desk.new out.new) (inline_all node (contents book.now.tape) (behind_of (contents book.now.tape) parent outer behind) result.trim (nodes_in (contents book.now.tape) span result.next)) ≡ emit_all (desk_of (contents book.now.tape).source desk.old out.old) (plain_from node (contents book.now.tape) (behind_of (contents book.now.tape) parent outer behind) trim c.at (nodes_in (contents book.now.tape) span (next_sibling (contents book.now.tape) c.at)) child) }
    ensures kept_at { Kept (contents book.now.tape) c kept → KeptAt (contents book.now.tape) result.next result.kept }
    ensures next_bound { left (contents book.now.tape) result.next < left (contents book.now.tape) (Some c) }
    ensures next_value { result.next ≡ next_by (contents book.now.tape) span c.at child }
    ensures trim_value { Kept (contents book.now.tape) c kept → result.trim ≡ trim_by (contents book.now.tape) (behind_of (contents book.now.tape) parent outer behind) trim c.at child }
    ensures kept_value { Kept (contents book.now.tape) c kept → result.kept ≡ kept_by (contents book.now.tape) span kept c.at child }
    ensures behind_value { Kept (contents book.now.tape) c kept → result.behind ≡ behind_by (contents book.now.tape) parent outer behind c.at child }
{
    // A match that chooses what to call: the calls differ in what they are given, and closures would say no more.
    match child {
        Child::Anchor => anchor_turn(book, span, c, behind, desk, out),
        Child::Words => words_turn(book, parent, outer, c, trim, behind, kept, desk, out),
        Child::Passed => passed_turn(&book.tape, c, trim, behind, kept),
        Child::Skipped => passed_turn(&book.tape, c, trim, behind, kept),
    }
}

// ---- notes

// Whether a node is the first child of another: it stands right behind it.
#[tactic(auto, using(crate::proofs::Laws::first_beside, crate::proofs::Laws::first_root))]
fn is_first(parent: Cursor, c: Cursor) -> bool
    ensures { result ≡ eqb c.at (parent.at + 1) }
{
    0 < c.at && c.at - 1 == parent.at
}

// The text of a note's child, made lean: the caller's word goes from the first child.
fn note_text<'a>(book: &Book<'a, '_>, parent: Cursor, c: Cursor) -> &'a [u8]
    ensures { result.now ≡ lean (note_text (contents book.now.tape) (parent.at + 1) c.at) }
{
    if is_first(parent, c) {
        return lean_of(render::remainder(c.text(&book.tape)));
    }
    lean_text(book, c)
}

// A text of a note.
fn note_words(
    book: &Book<'_, '_>,
    parent: Cursor,
    outer: bool,
    c: Cursor,
    trim: bool,
    behind: Behind,
    kept: Option<Cursor>,
    desk: &mut Desk,
    out: &mut [u8],
) -> Going
    ensures ks_after { Kept (contents book.now.tape) c kept → (node : ℕ → Bool → List Event) (ks : List ℕ) → emit_all (desk_of (contents book.now.tape).source desk.new out.new) (note_all node (contents book.now.tape) (parent.at + 1) (behind_of (contents book.now.tape) parent outer behind) result.trim ks) ≡ emit_all (desk_of (contents book.now.tape).source desk.old out.old) (note_plain node (contents book.now.tape) (behind_of (contents book.now.tape) parent outer behind) trim (parent.at + 1) c.at ks Words) }
    ensures kept_at { Kept (contents book.now.tape) c kept → KeptAt (contents book.now.tape) result.next result.kept }
    ensures next_value { result.next ≡ next_sibling (contents book.now.tape) c.at }
    ensures trim_value { Kept (contents book.now.tape) c kept → result.trim ≡ note_trim_by (contents book.now.tape) (parent.at + 1) (behind_of (contents book.now.tape) parent outer behind) trim c.at Words }
    ensures kept_value { Kept (contents book.now.tape) c kept → result.kept ≡ kept_behind_of (contents book.now.tape) (note_text (contents book.now.tape) (parent.at + 1) c.at) kept c.at result.next }
    ensures behind_value { Kept (contents book.now.tape) c kept → result.behind ≡ behind_text (contents book.now.tape) parent outer behind c.at (note_text (contents book.now.tape) (parent.at + 1) c.at) }
{
    let next = c.next_sibling(&book.tape);
    let s = note_text(book, parent, c);
    let l = look(book, parent, outer, c, s, trim, behind, kept, next);
    let n = l.text;
    put_texts::put_unbroken(s, n, desk, out);
    Going {
        trim: still(trim, n),
        behind: l.behind,
        kept: l.kept,
        next,
    }
}

// A turn along a note's children that enters no marker.
pub fn note_turn(
    book: &Book<'_, '_>,
    parent: Cursor,
    outer: bool,
    c: Cursor,
    child: Child,
    trim: bool,
    behind: Behind,
    kept: Option<Cursor>,
    desk: &mut Desk,
    out: &mut [u8],
) -> Going
    ensures next_after { Kept (contents book.now.tape) c kept → (node : ℕ → Bool → List Event) → emit_all (desk_of (contents book.now.tape).source desk.new out.new) (note_all node (contents book.now.tape) (parent.at + 1) (behind_of (contents book.now.tape) parent outer behind) result.trim (walk_from (contents book.now.tape) result.next)) ≡ emit_all (desk_of (contents book.now.tape).source desk.old out.old) (note_plain node (contents book.now.tape) (behind_of (contents book.now.tape) parent outer behind) trim (parent.at + 1) c.at (walk_from (contents book.now.tape) (next_sibling (contents book.now.tape) c.at)) child) }
    ensures kept_at { Kept (contents book.now.tape) c kept → KeptAt (contents book.now.tape) result.next result.kept }
    ensures next_bound { left (contents book.now.tape) result.next < left (contents book.now.tape) (Some c) }
    ensures next_value { result.next ≡ next_sibling (contents book.now.tape) c.at }
    ensures trim_value { Kept (contents book.now.tape) c kept → result.trim ≡ note_trim_by (contents book.now.tape) (parent.at + 1) (behind_of (contents book.now.tape) parent outer behind) trim c.at child }
    ensures kept_value { Kept (contents book.now.tape) c kept → result.kept ≡ note_kept_by (contents book.now.tape) (parent.at + 1) kept c.at child }
    ensures behind_value { Kept (contents book.now.tape) c kept → result.behind ≡ note_behind_by (contents book.now.tape) (parent.at + 1) parent outer behind c.at child }
{
    // A match that chooses what to call: the calls differ in what they are given, and closures would say no more.
    match child {
        Child::Words => note_words(book, parent, outer, c, trim, behind, kept, desk, out),
        Child::Passed => passed_turn(&book.tape, c, trim, behind, kept),
        Child::Anchor => passed_turn(&book.tape, c, trim, behind, kept),
        Child::Skipped => passed_turn(&book.tape, c, trim, behind, kept),
    }
}
