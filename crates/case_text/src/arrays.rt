// The long arrays. Each is made by a function of its own whose contract has its length, so that no proof walks the array.
// It is not inlined: a caller's stack then holds the array once, and not twice.
ghost use Rattle.std.specs.Prelude.{◌≡◌, ◌≤◌, length};

// Columns that have an entry for each edge, and for each name.
pub const EDGES: usize = 140000;

pub const NAMED: usize = 40002;

// The text, and the arenas of a case's numbers.
pub const TEXT: usize = 600000;

pub const BYTES: usize = 400020;

pub const HALVES: usize = 200000;

#[inline(never)]
pub fn filled<T: Copy, const N: usize>(x: T) -> [T; N]
    ensures { N ≡ length result }
{
    [x; N]
}

// Room k of a case, `most` at most. A case that asks for more has been refused before.
pub fn room(rooms: &[u64], k: usize, most: usize) -> usize
    ensures { result ≤ most }
{
    match rooms.get(k) {
        Some(asked) => (*asked).min(most as u64) as usize,
        None => 0,
    }
}

// So many offsets a graph of so many objects has, in so many blocks.
pub fn offsets(objects: usize) -> usize {
    objects.saturating_add(1)
}

pub fn blocks(objects: usize) -> usize {
    objects / 256 + 1
}
