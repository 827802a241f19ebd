// How a question's label and its refusal are written.
use case_text::form;
use rules::{Label, ListError};
use std::io;

// The loader and the elements are named, any other label is its number.
#[derive(Clone, Copy)]
pub struct Named(pub u32);

impl Named {
    pub fn tell(self, rt: &impl Print) -> io::Result<()> {
        let label = self.0;
        if label == Label::LOADER {
            print::word(rt, b"loader")?;
        } else if label < Label::ARRAY_ELEMENT {
            print::number(rt, u64::from(label))?;
        } else {
            print::word(rt, b"#")?;
            print::number(rt, u64::from(label - Label::ARRAY_ELEMENT))?;
        }
        Ok(())
    }
}

// A refusal by its name, and its place.
#[derive(Clone, Copy)]
pub struct Refused(pub ListError);

impl Refused {
    pub fn tell(self, rt: &impl Print) -> io::Result<()> {
        match self.0 {
            ListError::Room(buffer) => form::fill(rt, b"room #", &[buffer as u64]),
            ListError::Index(at) => form::fill(rt, b"index #", &[at as u64]),
            ListError::Columns(at) => form::fill(rt, b"columns #", &[at as u64]),
        }
    }
}

// A refusal of a question that writes into lent columns, and a mark where it did not leave them zero.
pub fn refusal(rt: &impl Print, e: ListError, left_zero: bool) -> io::Result<()> {
    print::word(rt, b" ")?;
    Refused(e).tell(rt)?;
    if !left_zero {
        print::word(rt, b"!")?;
    }
    Ok(())
}
