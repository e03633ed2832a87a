#![tactic(auto)]
// Lists of siblings that may be cut at the next block or go without category markers.
ghost use Rattle.std.specs.Prelude.{◌≡◌, ◌&&◌, ◌≤◌};
ghost use Rattle.render.specs.Shape.{is_category_marker_of, is_top_level_block_of};
ghost use Rattle.tape.specs.File.{contents};
ghost use Rattle.tape.specs.Tree.{left, from_first};
ghost use Rattle.fold.specs.Fold.{fold_at};
ghost use Rattle.lists.specs.Span.{nodes_in, member_of_of, stops_at_of, run_end_of, folds_at, folded_in};

use fold::Claim;
use leading_white::Book;
use tape::{Cursor, Kind, TapeFile};

// Which siblings a list has: up to the next block, or all; without category markers, or with them.
#[derive(Clone, Copy)]
pub struct Span {
    pub cut: bool,
    pub sifted: bool,
}

// What a sibling is to its list.
#[derive(Clone, Copy, PartialEq, Eq)]
pub enum Member {
    End,
    Skipped,
    Listed,
}

// What a run of siblings ends at.
#[derive(Clone, Copy, PartialEq, Eq)]
pub enum Stop {
    Block,
    NoRow,
}

// The markers that folded, and where the siblings go on.
#[derive(Clone, Copy)]
pub struct Folds {
    pub alt: Option<Cursor>,
    pub published: Option<Cursor>,
    pub rest: Option<Cursor>,
}

// What a sibling is to a list.
#[tactic(auto, unfolding(crate::specs::Span::member_of_of))]
pub fn member_of(tape: &TapeFile<'_>, span: Span, c: Cursor) -> Member
    ensures { result ≡ member_of_of (contents tape.now) span c.at }
{
    if span.sifted && render::is_category_marker(tape, c) {
        Member::Skipped
    } else if span.cut && render::is_top_level_block(tape, c) {
        Member::End
    } else {
        Member::Listed
    }
}

// Whether a run ends at a node.
fn stops(tape: &TapeFile<'_>, stop: Stop, c: Cursor) -> bool
    ensures { result ≡ stops_at_of (contents tape.now) stop c.at }
{
    match stop {
        Stop::Block => render::is_top_level_block(tape, c),
        Stop::NoRow => !render::is_row(tape, c),
    }
}

// The first node of a list, from here on, that ends a run.
pub fn past_run(
    tape: &TapeFile<'_>,
    span: Span,
    stop: Stop,
    first: Option<Cursor>,
) -> Option<Cursor>
    ensures result_value { nodes_in (contents tape.now) span result ≡ from_first (stops_at_of (contents tape.now) stop) (nodes_in (contents tape.now) span first) }
    ensures result_bound { left (contents tape.now) result ≤ left (contents tape.now) first }
    ensures value { result ≡ run_end_of (contents tape.now) span stop first }
{
    let mut step = first;
    while let Some(c) = step {
        match member_of(tape, span, c) {
            Member::End => return step,
            Member::Skipped => {}
            Member::Listed => {
                if stops(tape, stop, c) {
                    return step;
                }
            }
        }
        step = c.next_sibling(tape);
    }
    step
}

// Both numbers of an anchor, from the list behind it, and where that list goes on.
pub fn fold_in(book: &Book<'_, '_>, span: Span, kind: Kind, first: Option<Cursor>) -> Folds
    ensures result_value { folded_in (contents book.now.tape) span result ≡ fold_at (contents book.now.tape) kind.code (nodes_in (contents book.now.tape) span first) }
    ensures rest_bound { left (contents book.now.tape) result.rest ≤ left (contents book.now.tape) first }
    ensures value { result ≡ folds_at (contents book.now.tape) span kind.code first }
{
    let mut folds = Folds {
        alt: None,
        published: None,
        rest: first,
    };
    while let Some(c) = folds.rest {
        match member_of(&book.tape, span, c) {
            Member::End => return folds,
            Member::Skipped => {}
            Member::Listed => match fold::claims(
                book,
                c,
                kind,
                folds.alt.is_some(),
                folds.published.is_some(),
            ) {
                Claim::Stops => return folds,
                Claim::Blank => {}
                Claim::Alt => folds.alt = Some(c),
                Claim::Pub => folds.published = Some(c),
            },
        }
        folds.rest = c.next_sibling(&book.tape);
    }
    folds
}
