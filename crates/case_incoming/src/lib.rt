// What is written of the incoming side of a graph (M-103): its columns in just the room that they need, what is said where one of them is a number short,
// and who holds each object.
#![tactic(auto)]

mod held;
mod lent;
mod show;
mod turn;

use ask_span::Strong;
use std::io;
use turn::TURNS;

// Of a build that is done, by the used parts of its columns. There is one place that runs the turns, so that their long arrays need the stack once, and only while
// they run.
#[inline(never)]
pub fn all(rt: &impl Print, objects: usize, graph: Strong<'_>) -> io::Result<()> {
    let mut long = 0;
    for turn in TURNS {
        let needs = turn::needs(graph.targets.len(), objects, long);
        if turn.is_run(needs) {
            let answer = lent::run(rt, turn, &turn.rooms(needs), graph)?;
            long = turn.long(long, answer);
        }
    }
    Ok(())
}
