// Reference ids in four bytes each: the distance above a base in steps of 8 bytes, plus one; an id that does not fit is kept whole in a list of
// escapes, by place (`Copied`).
#![tactic(auto)]

pub mod code;

ghost use Rattle.std.specs.Prelude.{length};
ghost use Rattle.index.specs.Copied.{IdsCoding};

pub use index_read::{IdError, id_at};

// The lengths used of codes and of escapes.
#[derive(Clone, Copy)]
pub struct CodedIds {
    pub codes: usize,
    pub escapes: usize,
}

// Why ids are not coded: a buffer, by its number, has too little room.
#[derive(Clone, Copy)]
pub enum IdsError {
    Room(usize),
}

// Codes the ids over a base. The unused ends of the three columns are zero after acceptance, and all of them after a refusal.
pub fn code_ids(
    ids: &[u64],
    base: u64,
    codes: &mut [u32],
    escape_places: &mut [u64],
    escape_ids: &mut [u64],
) -> Result<CodedIds, IdsError>
    ensures { IdsCoding base ids.now (length codes.old) (length escape_places.old) (length escape_ids.old) result codes.new
        escape_places.new escape_ids.new }
{
    match code::judge(
        ids,
        base,
        codes.len(),
        escape_places.len(),
        escape_ids.len(),
    ) {
        Ok(coded) => {
            code::write_all(ids, base, coded.escapes, codes, escape_places, escape_ids);
            Ok(coded)
        }
        Err(e) => {
            code::zero_all(codes, escape_places, escape_ids);
            Err(e)
        }
    }
}
