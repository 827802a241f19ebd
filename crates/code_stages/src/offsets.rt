// The stage of the offsets: buffers 4 and 5.
ghost use Rattle.std.specs.Prelude.{length};
ghost use Rattle.rules.specs.Types.{built_says};
ghost use Rattle.code_stages.specs.Stages.{Where, OffsetsReady, OffsetsCoded};

use crate::answers;
use rules::{Counts, Refusal};

pub fn offsets_stage(
    v: Result<Counts, Refusal>,
    offsets: &[u64],
    bases: &mut [u64],
    short: &mut [u16],
    long_at: &mut [u32],
    long_value: &mut [u64],
) -> Result<Counts, Refusal>
    requires { Where (built_says v) (OffsetsReady offsets.now) }
    ensures { OffsetsCoded (built_says v) offsets.now
        (length bases.old) (length short.old) (length long_at.old) (length long_value.old)
        (built_says result) bases.new short.new long_at.new long_value.new }
{
    let c = v?;
    let coded = store::code_offsets(offsets, bases, short, long_at, long_value).map_err(
        answers::uncoded,
    )?;
    Ok(Counts {
        long: coded.long,
        ..c
    })
}
