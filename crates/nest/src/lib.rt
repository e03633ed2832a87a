#![tactic(auto)]
// Refusals 6 and 7: whether a tape is too deep, and whether it nests.
ghost use Rattle.std.specs.Prelude.{◌≡◌, true, ◌↔◌};
ghost use Rattle.tape.specs.File.{contents};
ghost use Rattle.nest.specs.Tape.{link_at};
ghost use Rattle.nest.specs.Nest.{part_of, TooDeep, RootEnds, Sound};

use tape::{Cursor, Kind, TapeFile};

// The most containers that are open at once.
const MOST_OPEN: usize = 64;

// What a node does to the nesting; a container opens up to its link.
#[derive(Clone, Copy)]
pub enum Part {
    Opens(u32),
    Closes,
    Leaf,
}

pub fn part_at(t: &TapeFile<'_>, i: u32) -> Part
    ensures { result ≡ part_of (contents t.now).nodes i }
{
    let c = Cursor::new(i);
    let kind = c.kind(t);
    if kind.code == Kind::MARKER_OPEN {
        let link = c.link(t);
        if link == i {
            Part::Leaf
        } else {
            Part::Opens(link)
        }
    } else if kind.is_close() {
        Part::Closes
    } else {
        Part::Leaf
    }
}

// Refusal 6: over 64 containers are open before some node.
pub fn too_deep(t: &TapeFile<'_>) -> bool
    ensures { (result ≡ true) ↔ TooDeep (contents t.now).nodes }
{
    let mut opens: usize = 0;
    let mut closes: usize = 0;
    for i in 0..t.sections.nodes {
        if closes + MOST_OPEN < opens {
            return true;
        }
        match part_at(t, i) {
            Part::Opens(_) => opens += 1,
            Part::Closes => closes += 1,
            Part::Leaf => {}
        }
    }
    false
}

fn root_link(t: &TapeFile<'_>) -> u32
    ensures { result ≡ link_at (contents t.now).nodes 0 }
{
    t.node_at(0).link
}

// Whether Root's link is the node count, or the last node where that is a BlockEnd.
pub fn root_ends(t: &TapeFile<'_>) -> bool
    ensures { (result ≡ true) ↔ RootEnds (contents t.now).nodes }
{
    let n = t.sections.nodes;
    let end = root_link(t);
    end == n || (end < n && end + 1 == n && t.node_at(end).kind.code == Kind::BLOCK_END)
}

// That refusals 6 and 7 do not apply: the closes that open containers await are a stack of 64.
pub fn nests(t: &TapeFile<'_>) -> bool
    ensures { (result ≡ true) ↔ Sound (contents t.now).nodes }
{
    if !root_ends(t) {
        return false;
    }
    let mut awaited = [0u32; MOST_OPEN];
    let mut top: usize = 0;
    for at in 0..root_link(t) {
        match part_at(t, at) {
            Part::Opens(l) => {
                if top == MOST_OPEN {
                    return false;
                }
                awaited[top] = l;
                top += 1;
            }
            Part::Closes => {
                if top == 0 {
                    return false;
                }
                top -= 1;
                if awaited[top] != at {
                    return false;
                }
            }
            Part::Leaf => {}
        }
    }
    top == 0
}
