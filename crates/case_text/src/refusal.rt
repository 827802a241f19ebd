// How a refusal is told: document 01's name and number, and its place.
use crate::form;
use rules::{ListError, ReadError, Refusal};
use std::io;

#[derive(Clone, Copy)]
pub struct Refused(pub Refusal);

impl From<ReadError> for Refused {
    fn from(e: ReadError) -> Refused {
        Refused::from(ListError::from(e))
    }
}

impl From<ListError> for Refused {
    fn from(e: ListError) -> Refused {
        Refused(match e {
            ListError::Room(buffer) => Refusal::Room(buffer),
            ListError::Index(at) => Refusal::Index(at),
            ListError::Columns(at) => Refusal::Columns(at),
        })
    }
}

impl Refused {
    pub fn tell(self, rt: &impl Print) -> io::Result<()> {
        match self.0 {
            Refusal::Lengths => form::fill(rt, b"LENGTHS, 1", &[]),
            Refusal::Limit => form::fill(rt, b"LIMIT, 2", &[]),
            Refusal::Object(at) => form::fill(rt, b"OBJECT, 3, at #", &[at as u64]),
            Refusal::Class(at) => form::fill(rt, b"CLASS, 4, at #", &[at as u64]),
            Refusal::Copied(at) => form::fill(rt, b"COPIED, 5, at #", &[at as u64]),
            Refusal::Span(at) => form::fill(rt, b"SPAN, 6, at #", &[at as u64]),
            Refusal::Root(at) => form::fill(rt, b"ROOT, 7, at #", &[at as u64]),
            Refusal::Places => form::fill(rt, b"PLACES, 8", &[]),
            Refusal::Room(buffer) => form::fill(rt, b"ROOM, 9, buffer #", &[buffer as u64]),
            Refusal::Parts { column, position } => {
                let numbers = [column as u64, position as u64];
                form::fill(rt, b"PARTS, 10, column #, position #", &numbers)
            }
            Refusal::Index(at) => form::fill(rt, b"INDEX, 11, at #", &[at as u64]),
            Refusal::Columns(at) => form::fill(rt, b"COLUMNS, 12, at #", &[at as u64]),
        }
    }

    // Some words and the refusal, on a line of their own.
    pub fn line(self, rt: &impl Print, text: &str) -> io::Result<()> {
        print::word(rt, text.as_bytes())?;
        self.tell(rt)?;
        print::word(rt, b"\n")?;
        Ok(())
    }
}
