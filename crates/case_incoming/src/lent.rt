// The columns that the incoming side is laid in: fixed arrays full of nines, of which rooms are lent.
use crate::turn::{ROWS, Turn};
use crate::{held, show};
use ask_span::Strong;
use case_text::arrays;
use case_text::arrays::{EDGES, room};
use incoming::Incoming;
use rules::{Inverse, InvertError};
use std::io;
use store::Offsets;

// What is written of a turn.
fn told(
    rt: &impl Print,
    turn: Turn,
    answer: Result<Inverse, InvertError>,
    incoming: Incoming<'_>,
    working: &[u64],
) -> io::Result<()> {
    match turn {
        Turn::Ample => Ok(()),
        Turn::Exact => show::columns(rt, answer, incoming, working),
        Turn::Less(k) => show::refusal(rt, k, answer, incoming, working),
        Turn::Holders => held::objects(rt, incoming),
    }
}

// The call in the columns lent, and what is written of it.
fn within<'a>(
    rt: &impl Print,
    turn: Turn,
    graph: Strong<'_>,
    sources: &'a mut [u32],
    places: &'a mut [u32],
    in_bases: &'a mut [u64],
    in_short: &'a mut [u16],
    in_long_at: &'a mut [u32],
    in_long_value: &'a mut [u64],
    working: &mut [u64],
) -> io::Result<Result<Inverse, InvertError>> {
    let answer = incoming::invert(
        graph,
        sources,
        places,
        in_bases,
        in_short,
        in_long_at,
        in_long_value,
        working,
    );
    let incoming = Incoming {
        sources,
        places,
        offsets: Offsets {
            bases: in_bases,
            short: in_short,
            long_at: in_long_at,
            long_value: in_long_value,
        },
    };
    told(rt, turn, answer, incoming, working)?;
    Ok(answer)
}

// A turn in columns of these rooms: what it says.
pub(crate) fn run(
    rt: &impl Print,
    turn: Turn,
    rooms: &[u64],
    graph: Strong<'_>,
) -> io::Result<Result<Inverse, InvertError>> {
    let sources_room = room(rooms, 0, EDGES);
    let places_room = room(rooms, 1, EDGES);
    let bases_room = room(rooms, 2, ROWS);
    let short_room = room(rooms, 3, ROWS);
    let long_at_room = room(rooms, 4, ROWS);
    let long_value_room = room(rooms, 5, ROWS);
    let working_room = room(rooms, 6, ROWS);
    let mut sources: [u32; EDGES] = arrays::filled(9);
    let mut places: [u32; EDGES] = arrays::filled(9);
    let mut in_bases: [u64; ROWS] = [9; ROWS];
    let mut in_short: [u16; ROWS] = [9; ROWS];
    let mut in_long_at: [u32; ROWS] = [9; ROWS];
    let mut in_long_value: [u64; ROWS] = [9; ROWS];
    let mut working: [u64; ROWS] = [9; ROWS];
    within(
        rt,
        turn,
        graph,
        &mut sources[..sources_room],
        &mut places[..places_room],
        &mut in_bases[..bases_room],
        &mut in_short[..short_room],
        &mut in_long_at[..long_at_room],
        &mut in_long_value[..long_value_room],
        &mut working[..working_room],
    )
}
