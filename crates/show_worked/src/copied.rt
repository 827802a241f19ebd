// Case (h): over base 256 the id 264 is code 2, 4096 is 481, and 9999 is escaped.
use case_text::column::used;
use case_text::refusal::Refused;
use index::{CodedIds, IdError, IdsError};
use rules::Refusal;
use std::io;

fn show_id(rt: &impl Print, answer: Result<u64, IdError>) -> io::Result<()> {
    let r = match answer {
        Ok(id) => {
            print::line(rt, b"    id ", id)?;
            return Ok(());
        }
        Err(IdError::Index(i)) => Refusal::Index(i),
        Err(IdError::Copied(i)) => Refusal::Copied(i),
    };
    Refused(r).line(rt, "    refused: ")
}

// Every id read back, and the first place past them.
fn show_ids(
    rt: &impl Print,
    codes: &[u32],
    escape_places: &[u64],
    escape_ids: &[u64],
) -> io::Result<()> {
    for i in 0..codes.len() {
        show_id(rt, index::id_at(codes, escape_places, escape_ids, 256, i))?;
    }
    let end = codes.len();
    show_id(rt, index::id_at(codes, escape_places, escape_ids, 256, end))
}

// What is left in the columns, and the ids read back from the used parts.
fn left(
    rt: &impl Print,
    answer: Result<CodedIds, IdsError>,
    codes: &[u32],
    escape_places: &[u64],
    escape_ids: &[u64],
) -> io::Result<()> {
    print::column(rt, b"  codes", codes)?;
    print::column(rt, b"  escape places", escape_places)?;
    print::column(rt, b"  escape ids", escape_ids)?;
    match answer {
        Ok(n) => show_ids(
            rt,
            used(codes, n.codes),
            used(escape_places, n.escapes),
            used(escape_ids, n.escapes),
        ),
        Err(IdsError::Room(k)) => Refused(Refusal::Room(k)).line(rt, "  refused: "),
    }
}

// Codes the ids and reads them back.
fn there_and_back(
    rt: &impl Print,
    ids: &[u64],
    codes: &mut [u32],
    escape_places: &mut [u64],
    escape_ids: &mut [u64],
) -> io::Result<()> {
    let answer = index::code_ids(ids, 256, codes, escape_places, escape_ids);
    left(rt, answer, codes, escape_places, escape_ids)
}

pub(crate) fn show(rt: &impl Print) -> io::Result<()> {
    let ids: [u64; 4] = [264, 4096, 9999, 0];
    let mut codes: [u32; 5] = [9; 5];
    let mut escape_places: [u64; 1] = [9; 1];
    let mut escape_ids: [u64; 1] = [9; 1];
    print::word(
        rt,
        b"\n(h) copied ids over base 256, read back from their codes\n",
    )?;
    there_and_back(rt, &ids, &mut codes, &mut escape_places, &mut escape_ids)?;
    print::word(rt, b"  the same without room for the escape\n")?;
    there_and_back(rt, &ids, &mut codes, &mut [], &mut escape_ids)
}
