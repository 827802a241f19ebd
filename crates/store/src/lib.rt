// Offsets in two bytes each above a base for every 256 of them; one too far above its base is kept whole in a long list, by place (`Blocked`).
#![tactic(auto)]

pub mod code;

ghost use Rattle.std.specs.Prelude.{length};
ghost use Rattle.store.specs.Blocked.{Coding};

pub use store_read::{Offsets, ReadError, short_at};

// The lengths used of bases, of short numbers and of long rows.
#[derive(Clone, Copy)]
pub struct CodedOffsets {
    pub bases: usize,
    pub short: usize,
    pub long: usize,
}

// Why offsets are not coded: they are too many; the one at a place is below its block's base; or a buffer, by its number, has too little room.
#[derive(Clone, Copy)]
pub enum OffsetsError {
    Limit,
    Parts(usize),
    Room(usize),
}

// Codes the numbers `values`. The unused ends of the four columns are zero after acceptance, and all of them after a refusal.
pub fn code_offsets(
    values: &[u64],
    bases: &mut [u64],
    short: &mut [u16],
    long_at: &mut [u32],
    long_value: &mut [u64],
) -> Result<CodedOffsets, OffsetsError>
    ensures { Coding values.now (length bases.old) (length short.old) (length long_at.old) (length long_value.old) result bases.new
        short.new long_at.new long_value.new }
{
    match code::judge(
        values,
        bases.len(),
        short.len(),
        long_at.len(),
        long_value.len(),
    ) {
        Ok(coded) => {
            code::write_all(values, coded.long, bases, short, long_at, long_value);
            Ok(coded)
        }
        Err(e) => {
            code::zero_all(bases, short, long_at, long_value);
            Err(e)
        }
    }
}
