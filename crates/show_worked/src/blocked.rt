// Case (m): a difference of 65,534 is short, and one of 65,535 goes to the long list.
use case_text::column::used;
use case_text::refusal::Refused;
use rules::{ReadError, Refusal};
use std::io;
use store::{CodedOffsets, Offsets, OffsetsError};

fn show_offset(rt: &impl Print, answer: Result<u64, ReadError>) -> io::Result<()> {
    match answer {
        Ok(v) => {
            print::line(rt, b"    offset ", v)?;
            Ok(())
        }
        Err(e) => Refused::from(e).line(rt, "    refused: "),
    }
}

// Every offset read back, and the first place past them.
fn show_offsets(rt: &impl Print, offsets: Offsets<'_>) -> io::Result<()> {
    let end = offsets.short.len();
    for i in 0..end {
        show_offset(rt, offsets.at(i))?;
    }
    show_offset(rt, offsets.at(end))
}

fn columns(rt: &impl Print, offsets: Offsets<'_>) -> io::Result<()> {
    print::column(rt, b"  bases", offsets.bases)?;
    print::column(rt, b"  short", offsets.short)?;
    print::column(rt, b"  long at", offsets.long_at)?;
    print::column(rt, b"  long value", offsets.long_value)?;
    Ok(())
}

// The offsets read back from the used parts.
fn back(
    rt: &impl Print,
    answer: Result<CodedOffsets, OffsetsError>,
    all: Offsets<'_>,
) -> io::Result<()> {
    let r = match answer {
        Ok(n) => {
            let offsets = Offsets {
                bases: used(all.bases, n.bases),
                short: used(all.short, n.short),
                long_at: used(all.long_at, n.long),
                long_value: used(all.long_value, n.long),
            };
            return show_offsets(rt, offsets);
        }
        Err(OffsetsError::Limit) => Refusal::Limit,
        Err(OffsetsError::Parts(position)) => Refusal::Parts {
            column: 1,
            position,
        },
        Err(OffsetsError::Room(k)) => Refusal::Room(k),
    };
    Refused(r).line(rt, "  refused: ")
}

// Codes the offsets and reads them back.
fn there_and_back(
    rt: &impl Print,
    values: &[u64],
    bases: &mut [u64],
    short: &mut [u16],
    long_at: &mut [u32],
    long_value: &mut [u64],
) -> io::Result<()> {
    print::column(rt, b"  offsets", values)?;
    let answer = store::code_offsets(values, bases, short, long_at, long_value);
    let all = Offsets {
        bases,
        short,
        long_at,
        long_value,
    };
    columns(rt, all)?;
    back(rt, answer, all)
}

pub(crate) fn show(rt: &impl Print) -> io::Result<()> {
    let mut bases: [u64; 1] = [9; 1];
    let mut short: [u16; 4] = [9; 4];
    let mut at: [u32; 1] = [9; 1];
    let mut value: [u64; 1] = [9; 1];
    print::word(
        rt,
        b"\n(m) differences 65534 and 65535 from the base of a block\n",
    )?;
    there_and_back(
        rt,
        &[7, 65541, 65542],
        &mut bases,
        &mut short,
        &mut at,
        &mut value,
    )?;
    print::word(
        rt,
        b"  a value below its base, and one value more than there is room for\n",
    )?;
    there_and_back(rt, &[7, 8, 6], &mut bases, &mut short, &mut at, &mut value)?;
    there_and_back(
        rt,
        &[7, 8, 9, 10, 11],
        &mut bases,
        &mut short,
        &mut at,
        &mut value,
    )
}
