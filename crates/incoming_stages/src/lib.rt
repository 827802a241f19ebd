// The stages of inverting that know no entry: what has no room, the offsets coded, and the end. A stage that is handed a refusal hands it on.
// The first and the last stand in a crate of their own, and have their names here.
#![tactic(auto)]

ghost use Rattle.std.specs.Prelude.{◌≡◌, ◌+◌, ◌-◌, ◌<◌, min, length};
ghost use Rattle.columns.specs.Columns.{accepts};
ghost use Rattle.columns.specs.Ranks.{Climbs};
ghost use Rattle.store.specs.Blocked.{coded_says, offset_says, long_rows, Coding};
ghost use Rattle.store_read.specs.Back.{blocked_in};
ghost use Rattle.rules.specs.Types.{inverted_says};
ghost use Rattle.incoming_stages.specs.Stages.{between_of, entries_of, long_fits, Climbing, CodeReady, coded_as, CodedIn};

pub use incoming_room::{early, settle};
use rules::{Inverse, InvertError};
use store::{CodedOffsets, Offsets, OffsetsError, ReadError};

// How many objects there are: one fewer than short offsets.
pub fn objects(short: usize) -> usize
    ensures { result ≡ short - 1 }
{
    short.saturating_sub(1)
}

// The difference of two offsets, where both are read.
#[tactic(auto, unfolding(crate::specs::Stages::between_of, columns::specs::Columns::accepts, columns::specs::Lists::all_of))]
fn between(first: Result<u64, ReadError>, last: Result<u64, ReadError>) -> usize
    ensures { result ≡ between_of (offset_says first) (offset_says last) }
{
    let (Ok(start), Ok(end)) = (first, last) else {
        return 0;
    };
    end.saturating_sub(start) as usize
}

// How many entries there are: one for each edge.
pub fn entries(offsets: Offsets<'_>) -> usize
    ensures { result ≡ entries_of (blocked_in offsets.entry) }
{
    let first = offsets.at(0);
    let last = offsets.at(objects(offsets.short.len()));
    between(first, last)
}

// The last place of the block that begins at `start`, of n numbers.
fn last_of(start: usize, n: usize) -> usize
    requires { start < n }
    ensures { result ≡ min (start + 255) (n - 1) }
{
    start + (n - 1 - start).min(255)
}

// How many rows the long list needs, of offsets that climb: none where the last offset of every block is short.
fn long_rows(values: &[u64]) -> usize
    requires { Climbs values.now }
    ensures { result ≡ long_rows values.now }
{
    let mut start = 0;
    while start < values.len() {
        let last = last_of(start, values.len());
        if 65535 <= values[last] - values[start] {
            return store::code::count_long(values);
        }
        start += 256;
    }
    0
}

#[tactic(auto, unfolding(crate::specs::Stages::long_fits, columns::specs::Lists::all_of))]
fn fits(rows: usize, long_at: usize, long_value: usize) -> bool
    ensures { result ≡ long_fits rows long_at long_value }
{
    rows <= long_at && rows <= long_value
}

// `store::code_offsets` of numbers that climb and have room but for the long rows: nothing else is tested, and numbers are read once where none is long.
fn code_climbing(
    values: &[u64],
    in_bases: &mut [u64],
    in_short: &mut [u16],
    in_long_at: &mut [u32],
    in_long_value: &mut [u64],
) -> Result<CodedOffsets, OffsetsError>
    requires { Climbing values.now (length in_bases.old) (length in_short.old) }
    ensures { Coding values.now (length in_bases.old) (length in_short.old) (length in_long_at.old) (length in_long_value.old) result
        in_bases.new in_short.new in_long_at.new in_long_value.new }
{
    let rows = long_rows(values);
    if fits(rows, in_long_at.len(), in_long_value.len()) {
        store::code::write_all(values, rows, in_bases, in_short, in_long_at, in_long_value);
        return Ok(CodedOffsets {
            bases: (values.len() + 255) / 256,
            short: values.len(),
            long: rows,
        });
    }
    store::code::zero_all(in_bases, in_short, in_long_at, in_long_value);
    Err(OffsetsError::Room(5))
}

// The answer behind the coding of the offsets, of so many entries.
#[tactic(auto, unfolding(crate::specs::Stages::coded_as, columns::specs::Columns::accepts))]
fn with_long(
    entries: usize,
    coded: Result<CodedOffsets, OffsetsError>,
) -> Result<Inverse, InvertError>
    ensures { inverted_says result ≡ coded_as entries (coded_says coded) }
{
    match coded {
        Ok(coded) => Ok(Inverse {
            entries,
            long: coded.long,
        }),
        Err(_) => Err(InvertError::Room(11)),
    }
}

// The offsets of the entries, coded from the front of the working column; after a refusal their columns are zero.
pub fn code(
    answer: Result<Inverse, InvertError>,
    objects: usize,
    working: &[u64],
    in_bases: &mut [u64],
    in_short: &mut [u16],
    in_long_at: &mut [u32],
    in_long_value: &mut [u64],
) -> Result<Inverse, InvertError>
    requires { CodeReady (inverted_says answer) objects working.now (length in_bases.old) (length in_short.old) }
    ensures { CodedIn (inverted_says answer) objects working.now (length in_bases.old) (length in_short.old) (length in_long_at.old)
        (length in_long_value.old) (inverted_says result) in_bases.new in_short.new in_long_at.new in_long_value.new }
{
    let Ok(inverse) = answer else {
        store::code::zero_all(in_bases, in_short, in_long_at, in_long_value);
        return answer;
    };
    let coded = code_climbing(
        &working[..objects + 1],
        in_bases,
        in_short,
        in_long_at,
        in_long_value,
    );
    with_long(inverse.entries, coded)
}
