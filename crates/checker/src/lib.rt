#![tactic(auto)]
// The checker of finished text: one pass over the bytes, a state folded over the tokens, no heap.
ghost use Rattle.std.specs.Prelude.{◌≡◌, ℕ, ◌+◌, ◌-◌, ◌≤◌, ◌<◌, ◌^◌, List, [], ◌∷◌, false, cond, length, drop};
ghost use Rattle.std.specs.Int.Signed.{mag};
ghost use Rattle.tags.specs.Form.{pairs_row, tagged, next, tokens_from};
ghost use Rattle.checker.specs.View.{id_key_of, bare, noted_by, mark_on};
ghost use Rattle.checker.specs.Answer.{answer_of};
ghost use Rattle.checker.specs.Words.{Judged};
ghost use Rattle.checker.specs.Steps.{rise, broke, pop, grow_in, grow, missed, is_milestone, pair_up};
ghost use Rattle.checker.specs.Check.{at_start, step_on, none_open_of, one_tree, paired_off, verdict_of, settle, Alike};
ghost use Rattle.checker.specs.Stack.{room, is_innermost};
ghost use Rattle.checker.specs.Code.{bytes_of, mark_in, view_in, brief, sight_in, trunk_of, HasRoom, held_in, turn_in, held_then, begun_then, is_right, CanCount, pairs_in, run_in, tree_at_start, kind_at_start, marks_at_start, state_at_start, Told};
ghost use Rattle.checker.specs.Place.{is_broken, broken_from, broken_place, line_ends, line_of};

use parts::{begins_with, from, part};
use std::marker::Model;
use tags::{Element, Head, Tail, head_at, pair_at, tail_at};

// The greatest height that a text may have.
const HIGHEST: i64 = 160;

// Room for the elements that are open at any height up to that.
const ROOM: usize = 160;

// A part of the text.
#[derive(Clone, Copy)]
struct Part {
    start: usize,
    len: usize,
}

// The keys that make a tag a start or an end, and any other.
#[derive(Clone, Copy)]
enum IdKey {
    Eid,
    Sid,
    Another,
}

// What the attributes of a chapter or verse tag make it.
#[derive(Clone, Copy)]
enum Form {
    Bare,
    Plain,
    Start(Part),
    End(Part),
    Other,
}

// The attributes of a tag, and where they end.
#[derive(Clone, Copy)]
struct Attrs {
    form: Form,
    end: usize,
}

// A token; elements are numbers, as `tags` gives them.
#[derive(Clone, Copy)]
enum Tag {
    Words,
    Opened(u8),
    Closed(u8),
    Single(u8, Form),
}

// The elements that are open, the innermost last; of fixed room, as there is no heap.
#[derive(Drop)]
struct Stack {
    elements: [u8; ROOM],
    depth: usize,
}

impl Model for Stack {
    ghost use Rattle.std.specs.Prelude.{ℕ, ◌≤◌, List};
    ghost use Rattle.checker.specs.Stack.{room, stack_of};

    ghost Value = { List ℕ };

    ghost view = { λ s. stack_of s.elements s.depth };

    ghost invariant = { λ s. s.depth ≤ room };
}

// The tree so far; the flags are those of `Trunk` in specs/Steps.
#[derive(Drop)]
struct Tree {
    stack: Stack,
    seen: bool,
    done: bool,
    broken: bool,
}

// The chapters or the verses so far: the one that is open, by its identifier, and how many began.
#[derive(Clone, Copy)]
struct Kind {
    held: Option<Part>,
    begun: usize,
}

#[derive(Clone, Copy)]
struct Marks {
    chapter: Kind,
    verse: Kind,
    wrong: bool,
}

// The fold over the tokens.
#[derive(Drop)]
struct State {
    height: i64,
    high: bool,
    tree: Tree,
    marks: Marks,
}

// The answer to a text: document 01's 0 with both counts, 11, 12, 13, 14.
#[derive(Clone, Copy)]
pub enum Verdict {
    Accepted { chapters: usize, verses: usize },
    NotTags,
    TooHigh,
    NoTree,
    BadMarks,
}

// ---- tokens

fn part_of(s: &[u8], p: Part) -> &[u8]
    ensures { result.now ≡ bytes_of s.now p }
{
    part(s, p.start, p.len)
}

#[tactic(auto, using(crate::proofs::Laws::pointwise_same), unfolding(crate::specs::View::id_key_of))]
fn key_of(key: &[u8]) -> IdKey
    ensures { result ≡ id_key_of key.now }
{
    if key == b"eid".as_slice() {
        IdKey::Eid
    } else if key == b"sid".as_slice() {
        IdKey::Sid
    } else {
        IdKey::Another
    }
}

// The form with one more attribute.
#[tactic(auto, unfolding(crate::specs::Code::mark_in, crate::specs::View::noted_by))]
fn formed(form: Form, key: IdKey, value: Part) -> Form
    ensures { (s : List ℕ) → mark_in s result ≡ noted_by (mark_in s form) key (bytes_of s value) }
{
    match (form, key) {
        (Form::Bare, IdKey::Eid) => Form::End(value),
        (Form::Bare | Form::Plain, IdKey::Sid) => Form::Start(value),
        (Form::Bare | Form::Plain, IdKey::Another) => Form::Plain,
        (Form::Start(id), IdKey::Another) => Form::Start(id),
        _ => Form::Other,
    }
}

// The attributes from a place on: what they make the tag, and where they end.
#[tactic(auto, using(crate::proofs::Laws::attrs_in))]
fn attrs_at(text: &[u8], at: usize) -> Attrs
    ensures { (drop result.«end» text.now ≡ (pairs_row (drop at text.now)).rest) × (mark_in text.now result.form ≡ mark_on bare (pairs_row (drop at text.now)).list) }
{
    let mut form = Form::Bare;
    let mut i = at;
    // A `while`: each turn passes a whole attribute.
    while let Some((k, v)) = pair_at(from(text, i)) {
        let key = part(text, i + 1, k);
        let value = Part {
            start: i + k + 3,
            len: v,
        };
        form = formed(form, key_of(key), value);
        i += k + v + 4;
    }
    Attrs { form, end: i }
}

// Behind `<name`.
#[tactic(auto, using(crate::proofs::Laws::open_in, crate::proofs::Laws::empty_in, crate::proofs::Laws::tag_open, crate::proofs::Laws::tag_empty, crate::proofs::Laws::tag_bad))]
fn tag_at(text: &[u8], n: u8, at: usize) -> Option<(Tag, usize)>
    ensures { sight_in text.now result ≡ brief (tagged n (drop at text.now)) }
{
    let Attrs { form, end } = attrs_at(text, at);
    match tail_at(from(text, end)) {
        Tail::Open => Some((Tag::Opened(n), end + 1)),
        Tail::Empty => Some((Tag::Single(n, form), end + 3)),
        Tail::Neither => None,
    }
}

// The next token, and where it ends.
#[tactic(auto, using(crate::proofs::Laws::next_bad, crate::proofs::Laws::words_in, crate::proofs::Laws::next_words, crate::proofs::Laws::closing_in, crate::proofs::Laws::next_closing, crate::proofs::Laws::opening_in, crate::proofs::Laws::next_opening))]
fn next_at(text: &[u8], at: usize) -> Option<(Tag, usize)>
    ensures { sight_in text.now result ≡ brief (next (drop at text.now)) }
{
    match head_at(from(text, at)) {
        Head::Bad => None,
        Head::Words(k) => Some((Tag::Words, at + k)),
        Head::Closing(n, l) => Some((Tag::Closed(n), at + l)),
        Head::Opening(n, l) => tag_at(text, n, at + l),
    }
}

// ---- heights

#[tactic(auto, using(crate::proofs::Folds::up_fits, crate::proofs::Folds::down_fits), unfolding(crate::specs::Steps::rise, crate::specs::Code::view_in))]
fn level(h: i64, tag: Tag) -> i64
    requires { mag h + 1 < 2 ^ 63 }
    ensures { (s : List ℕ) → result ≡ rise h (view_in s tag) }
{
    match tag {
        Tag::Opened(_) => h + 1,
        Tag::Closed(_) => h - 1,
        Tag::Words | Tag::Single(_, _) => h,
    }
}

// ---- one tree

impl Stack {
    #[tactic(auto, unfolding(crate::specs::Stack::stack_of))]
    fn new() -> Self
        ensures { result ≡ [] }
    {
        Stack {
            elements: [0; ROOM],
            depth: 0,
        }
    }

    #[tactic(auto, using(crate::proofs::Folds::none_open))]
    fn is_empty(&self) -> bool
        ensures { result ≡ none_open_of self.now }
    {
        self.depth == 0
    }

    #[tactic(auto, using(crate::proofs::Folds::stack_length, crate::proofs::Folds::push_in))]
    fn push(&mut self, element: u8)
        requires { length self.old < room }
        ensures { self.new ≡ element ∷ self.old }
    {
        self.elements[self.depth] = element;
        self.depth += 1;
    }

    // Takes the innermost element away, if it is this one.
    #[tactic(auto, using(crate::proofs::Folds::innermost_in, crate::proofs::Folds::innermost_other, crate::proofs::Folds::innermost_none, crate::proofs::Folds::popped_in))]
    fn pop_if(&mut self, element: u8) -> bool
        ensures found { result ≡ is_innermost self.old element }
        ensures popped { self.new ≡ cond result (drop 1 self.old) self.old }
    {
        if self.depth > 0 && self.elements[self.depth - 1] == element {
            self.depth -= 1;
            true
        } else {
            false
        }
    }
}

impl Tree {
    fn new() -> Self
        ensures { result ≡ tree_at_start }
    {
        Tree {
            stack: Stack::new(),
            seen: false,
            done: false,
            broken: false,
        }
    }

    // One tag more.
    #[tactic(auto, unfolding(crate::specs::Steps::grow, crate::specs::Steps::broke))]
    fn grow(&mut self, tag: Tag)
        requires { self.old.broken ≡ false → HasRoom self.old tag }
        ensures { (s : List ℕ) → trunk_of self.new ≡ grow (trunk_of self.old) (view_in s tag) }
    {
        if self.broken {
            return;
        }
        if self.done || !self.takes(tag) {
            self.broken = true;
        }
    }

    // One tag more while usx is not closed; false where it may not stand there.
    #[tactic(auto, unfolding(crate::specs::Steps::grow_in, crate::specs::Steps::broke, crate::specs::Steps::push, crate::specs::Code::view_in))]
    fn takes(&mut self, tag: Tag) -> bool
        requires { HasRoom self.old tag }
        ensures { (s : List ℕ) → grow_in (trunk_of self.old) (view_in s tag) ≡ cond result (trunk_of self.new) (broke (trunk_of self.new)) }
    {
        match tag {
            Tag::Words => true,
            Tag::Opened(Element::USX) if self.seen => false,
            Tag::Opened(n) => {
                self.seen |= n == Element::USX;
                self.stack.push(n);
                true
            }
            Tag::Closed(n) => self.closes(n),
            Tag::Single(n, _) => n != Element::USX,
        }
    }

    #[tactic(auto, using(crate::proofs::Folds::pop_by), unfolding(crate::specs::Steps::broke))]
    fn closes(&mut self, n: u8) -> bool
        ensures { pop (trunk_of self.old) n self.old.stack ≡ cond result (trunk_of self.new) (broke (trunk_of self.new)) }
    {
        if self.stack.pop_if(n) {
            self.done = n == Element::USX;
            true
        } else {
            false
        }
    }

    #[tactic(auto, unfolding(crate::specs::Check::one_tree))]
    fn is_whole(&self) -> bool
        ensures { result ≡ one_tree (trunk_of self.now) }
    {
        !self.broken && self.seen && self.stack.is_empty()
    }
}

// ---- milestones

#[tactic(auto, unfolding(crate::specs::Steps::is_milestone))]
fn is_milestone(n: u8) -> bool
    ensures { result ≡ is_milestone n }
{
    n == Element::CHAPTER || n == Element::VERSE
}

impl Kind {
    fn new() -> Self
        ensures { result ≡ kind_at_start }
    {
        Kind {
            held: None,
            begun: 0,
        }
    }

    // One tag more of the kind; false where it is neither a start nor the end of what is open.
    #[tactic(auto, using(crate::proofs::Laws::pointwise_same), unfolding(crate::specs::Steps::turn, crate::specs::Code::held_in, crate::specs::Code::mark_in, crate::specs::Code::held_then, crate::specs::Code::begun_then, crate::specs::Code::is_right))]
    fn turn(&mut self, text: &[u8], form: Form) -> bool
        requires { self.old.begun + 1 < 2 ^ 64 }
        ensures held { held_in text.now self.new.held ≡ held_then (turn_in text.now self.old form) (held_in text.now self.old.held) }
        ensures begun { self.new.begun ≡ begun_then (turn_in text.now self.old form) self.old.begun }
        ensures right { result ≡ is_right (turn_in text.now self.old form) }
    {
        match (form, self.held) {
            (Form::Start(id), None) => {
                self.held = Some(id);
                self.begun += 1;
                true
            }
            (Form::End(id), Some(held)) if part_of(text, held) == part_of(text, id) => {
                self.held = None;
                true
            }
            _ => false,
        }
    }
}

impl Marks {
    fn new() -> Self
        ensures { result ≡ marks_at_start }
    {
        Marks {
            chapter: Kind::new(),
            verse: Kind::new(),
            wrong: false,
        }
    }

    // One tag more.
    #[tactic(auto, unfolding(crate::specs::Steps::missed))]
    fn add(&mut self, text: &[u8], tag: Tag)
        requires { CanCount self.old }
        ensures { pairs_in text.now self.new ≡ pair_up (pairs_in text.now self.old) (view_in text.now tag) }
    {
        if !self.takes(text, tag) {
            self.wrong = true;
        }
    }

    // One tag more; false where it may not stand there.
    #[tactic(auto, using(crate::proofs::Folds::chapter_taken, crate::proofs::Folds::chapter_left, crate::proofs::Folds::verse_taken), unfolding(crate::specs::Steps::pair_up, crate::specs::Steps::missed, crate::specs::Code::view_in))]
    fn takes(&mut self, text: &[u8], tag: Tag) -> bool
        requires { CanCount self.old }
        ensures { pair_up (pairs_in text.now self.old) (view_in text.now tag) ≡ cond result (pairs_in text.now self.new) (missed (pairs_in text.now self.new)) }
    {
        match tag {
            Tag::Words => true,
            Tag::Opened(n) | Tag::Closed(n) => !is_milestone(n),
            Tag::Single(Element::CHAPTER, form) => self.verse.held.is_none()
                && self.chapter.turn(text, form),
            Tag::Single(Element::VERSE, form) => self.verse.turn(text, form),
            Tag::Single(_, _) => true,
        }
    }

    #[tactic(auto, unfolding(crate::specs::Check::paired_off, crate::specs::Steps::is_shut, crate::specs::Code::held_in))]
    fn is_whole(&self) -> bool
        ensures { (s : List ℕ) → result ≡ paired_off (pairs_in s self.now) }
    {
        !self.wrong && self.chapter.held.is_none() && self.verse.held.is_none()
    }
}

// ---- the whole

impl State {
    fn new() -> Self
        ensures { result ≡ state_at_start }
    {
        State {
            height: 0,
            high: false,
            tree: Tree::new(),
            marks: Marks::new(),
        }
    }

    // One tag more; once a height was over 160 the tree is nothing to the answer.
    #[tactic(auto, unfolding(crate::specs::Check::step_on))]
    fn step(&mut self, text: &[u8], tag: Tag)
        requires low { mag self.old.height + 1 < 2 ^ 63 }
        requires few { CanCount self.old.marks }
        requires told { Told self.old }
        ensures { Alike (run_in text.now self.new) (step_on (run_in text.now self.old) (view_in text.now tag)) }
    {
        self.height = level(self.height, tag);
        self.high |= self.height > HIGHEST;
        if !self.high {
            self.tree.grow(tag);
        }
        self.marks.add(text, tag);
    }

    #[tactic(auto, unfolding(crate::specs::Check::verdict_of))]
    fn verdict(&self) -> Verdict
        ensures { (x : List ℕ) → result ≡ verdict_of (run_in x self.now) }
    {
        if self.high {
            Verdict::TooHigh
        } else if !self.tree.is_whole() {
            Verdict::NoTree
        } else if !self.marks.is_whole() {
            Verdict::BadMarks
        } else {
            Verdict::Accepted {
                chapters: self.marks.chapter.begun,
                verses: self.marks.verse.begun,
            }
        }
    }

    // Whether the rule of an answer is broken.
    #[tactic(auto, unfolding(crate::specs::Place::is_broken))]
    fn breaks(&self, answer: Verdict) -> bool
        ensures { (x : List ℕ) → result ≡ is_broken answer (run_in x self.now) }
    {
        match answer {
            Verdict::Accepted { .. } | Verdict::NotTags => false,
            Verdict::TooHigh => self.high,
            Verdict::NoTree => self.high || self.tree.broken,
            Verdict::BadMarks => self.marks.wrong,
        }
    }
}

// The rest of a text from its first byte, where its opening and its end are as they must be.
#[tactic(auto, using(crate::proofs::Whole::going_start, crate::proofs::Whole::going_bad, crate::proofs::Whole::going_on))]
fn walk(text: &[u8]) -> Verdict
    ensures { result ≡ settle at_start (tokens_from text.now) }
{
    let mut state = State::new();
    let mut at = 0;
    // A `while`: each turn passes a whole token.
    while at < text.len() {
        let Some((tag, end)) = next_at(text, at) else {
            return Verdict::NotTags;
        };
        state.step(text, tag);
        at = end;
    }
    state.verdict()
}

// The answer to a text, by document 01's rules.
pub fn check(text: &[u8]) -> Verdict
    ensures { Judged text.now (answer_of result) }
{
    if begins_with(text, b"<usx version=\"3.0\">") && text.ends_with(b"</usx>") {
        walk(text)
    } else {
        Verdict::NotTags
    }
}

// ---- where the first rule broke, for people

// The start of the first token that cannot be read or breaks the rule of an answer, or else the end.
#[tactic(auto, using(crate::proofs::Whole::going_on, crate::proofs::Places::look_bad, crate::proofs::Places::look_up, crate::proofs::Places::look_end))]
fn broken_at(text: &[u8], answer: Verdict) -> usize
    ensures { result ≡ length text.now - length (broken_from answer at_start text.now) }
{
    let mut state = State::new();
    let mut at = 0;
    // A `while`: each turn passes a whole token.
    while at < text.len() {
        let Some((tag, end)) = next_at(text, at) else {
            return at;
        };
        state.step(text, tag);
        if state.breaks(answer) {
            return at;
        }
        at = end;
    }
    text.len()
}

// How many bytes stand before the place where a text breaks the rule of its answer.
#[tactic(auto, unfolding(crate::specs::Place::broken_place))]
pub fn place(text: &[u8], answer: Verdict) -> usize
    ensures { result ≡ broken_place answer text.now }
{
    if begins_with(text, b"<usx version=\"3.0\">") {
        broken_at(text, answer)
    } else {
        0
    }
}

fn line_ends(s: &[u8]) -> usize
    ensures count { result ≡ line_ends s.now }
    ensures fits { result ≤ length s.now }
{
    s.iter().filter(|&&c| c == b'\n').count()
}

// The line that a place stands in, from 1.
#[tactic(auto, unfolding(crate::specs::Place::line_of))]
pub fn line_of(text: &[u8], at: usize) -> usize
    ensures { result ≡ line_of text.now at }
{
    line_ends(part(text, 0, at)) + 1
}
