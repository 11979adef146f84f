//! Walks over the lines of a room, from one to the next that it names, with a mark for each line met. A walk is refused at a
//! line that was not given out or that it meets twice, so it ends whatever the words are.

ghost use Rattle.std.specs.Prelude.{◌≡◌, ℕ, ◌+◌, ◌<◌, ◌≤◌, ◌^◌, List, ◌∷◌, length, IfSome, IsTrue};
ghost use Rattle.image_check.specs.Cells.{words_of, HasLines};
ghost use Rattle.image_check.specs.Marks.{HasMarksOf, HasWalked};
ghost use Rattle.image_check.specs.Meeting.{is_new, met_from};

use crate::cells::Cells;
use room_walks::Walk;

/// What a walk met so far: how many lines, and which last. 0 is none.
#[derive(Clone, Copy)]
pub(crate) struct Met {
    pub count: u64,
    pub latest: u64,
}

/// The lines of a room that were given out: from the first one to the one before fresh.
#[derive(Clone, Copy)]
pub(crate) struct Nodes {
    pub first: u64,
    pub fresh: u64,
}

/// Whether a line was given out and is met for the first time. It is marked then.
pub(crate) fn meet(nodes: Nodes, line: u64, marks: &mut [bool]) -> bool
    requires { nodes.fresh ≤ length marks.old }
    ensures size { length marks.new ≡ length marks.old }
    ensures first { (now : Met) → (met : List ℕ) → HasMarksOf marks.old now met → result ≡ is_new nodes.first nodes.fresh met line }
    ensures marked { IsTrue result → (now : Met) → (met : List ℕ) → HasMarksOf marks.old now met → HasMarksOf marks.new (record { count = now.count + 1; latest = line }) (line ∷ met) }
{
    if line < nodes.first || nodes.fresh <= line {
        return false;
    }
    let index = line as usize;
    if marks[index] {
        return false;
    }
    marks[index] = true;
    true
}

/// Walks from a line until 0, by this word of each line, and marks each line met. `None` where a line was not given out or
/// was met before.
pub(crate) fn walk(
    cells: Cells,
    word: u32,
    nodes: Nodes,
    start: u64,
    met: Met,
    marks: &mut [bool],
) -> Option<Met>
    requires word { word < 3 }
    requires lines { HasLines cells }
    requires fresh { nodes.fresh ≤ cells.sizes.lines }
    requires marks { length marks.old ≡ cells.sizes.lines }
    requires count { met.count + cells.sizes.lines < 2 ^ 64 }
    ensures few { IfSome result (λ now. now.count ≤ met.count + cells.entry.sizes.lines) }
    ensures walked { (before : List ℕ) → HasMarksOf marks.old met before → HasWalked result marks.new (met_from (λ x. words_of cells.entry x word) (is_new nodes.first nodes.fresh) before cells.entry.sizes.lines start) }
{
    let mut walk = Walk::from(start, word, cells.sizes.lines);
    let mut now = met;
    while let Some(line) = walk.next(&cells) {
        if !meet(nodes, line, marks) {
            return None;
        }
        now = Met {
            count: now.count + 1,
            latest: line,
        };
    }
    if walk.line == 0 { Some(now) } else { None }
}
