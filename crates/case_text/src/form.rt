// A form: a text whose marks `#` are places of numbers.
use crate::column::part;
use crate::text::{behind, find};
use std::io;

// A form is written with a number in the place of each mark. Numbers for which it has no mark are left out.
pub fn fill(rt: &impl Print, form: &[u8], numbers: &[u64]) -> io::Result<()> {
    let mut at = 0;
    for n in numbers {
        let end = find(form, at, |b| b == b'#');
        print::word(rt, part(form, at, end))?;
        if form.len() <= end {
            return Ok(());
        }
        print::number(rt, *n)?;
        at = behind(form, end);
    }
    print::word(rt, part(form, at, form.len()))?;
    Ok(())
}
