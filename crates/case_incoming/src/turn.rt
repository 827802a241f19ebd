// The turns of a graph, and the rooms of each.
use case_text::arrays::{EDGES, blocks, offsets};
use rules::{Inverse, InvertError};

#[derive(Clone, Copy)]
pub(crate) enum Turn {
    // In ample room: says how many long rows there are, and nothing of it is written.
    Ample,
    // In just the room needed: shows the columns.
    Exact,
    // The same, with a number less for one of the seven columns.
    Less(usize),
    // Shows who holds each object.
    Holders,
}

pub(crate) const TURNS: [Turn; 10] = [
    Turn::Ample,
    Turn::Exact,
    Turn::Less(0),
    Turn::Less(1),
    Turn::Less(2),
    Turn::Less(3),
    Turn::Less(4),
    Turn::Less(5),
    Turn::Less(6),
    Turn::Holders,
];

// The arrays that have an entry for each object at most, as those of a case have.
pub(crate) const ROWS: usize = 4000;

// All the room that there is, in the order of the columns.
fn ample() -> [u64; 7] {
    let edges = EDGES as u64;
    let rows = ROWS as u64;
    [edges, edges, rows, rows, rows, rows, rows]
}

// The room that each column needs, where so many offsets of the entries are long.
pub(crate) fn needs(edges: usize, objects: usize, long: u64) -> [u64; 7] {
    let entries = edges as u64;
    let rows = offsets(objects) as u64;
    [
        entries,
        entries,
        blocks(objects) as u64,
        rows,
        long,
        long,
        rows,
    ]
}

impl Turn {
    // A column that needs no room can have no less.
    pub(crate) fn is_run(self, needs: [u64; 7]) -> bool {
        match self {
            Turn::Less(k) => needs.get(k).is_some_and(|n| 0 < *n),
            _ => true,
        }
    }

    pub(crate) fn rooms(self, mut needs: [u64; 7]) -> [u64; 7] {
        match self {
            Turn::Ample => ample(),
            Turn::Less(k) => {
                if let Some(n) = needs.get_mut(k) {
                    *n = n.saturating_sub(1);
                }
                needs
            }
            _ => needs,
        }
    }

    // How many long rows there are, behind the turn: the one in ample room says it.
    pub(crate) fn long(self, before: u64, answer: Result<Inverse, InvertError>) -> u64 {
        match (self, answer) {
            (Turn::Ample, Ok(i)) => i.long as u64,
            (Turn::Ample, Err(_)) => 0,
            _ => before,
        }
    }
}
