// What can be wrong with the text, and how it is told.
use crate::form;
use std::io;

#[derive(Clone, Copy)]
pub enum Fault {
    NoListYet,
    ListTooMany,
    ListNotClosed,
    TitleNotClosed,
    NoNumber,
    NumberTooLarge,
    TooManyNumbers,
    WrongNumbers,
    WrongRooms,
    OddQuestions,
    TextTooLong,
}

impl Fault {
    fn words(self) -> &'static str {
        match self {
            Fault::NoListYet => "a list is missing before this place",
            Fault::ListTooMany => "a list more than a case has",
            Fault::ListNotClosed => "the list is not closed",
            Fault::TitleNotClosed => "the title is not closed",
            Fault::NoNumber => "no number, or one over 64 bits",
            Fault::NumberTooLarge => "a number that does not fit its column",
            Fault::TooManyNumbers => "more numbers than there is room for",
            Fault::WrongNumbers => "the six numbers of the case",
            Fault::WrongRooms => "the rooms of the case, in sets of seventeen",
            Fault::OddQuestions => "a question is not a pair",
            Fault::TextTooLong => "the text is too long",
        }
    }
}

// Where the text is malformed, and by what.
#[derive(Clone, Copy)]
pub struct Malformed {
    pub at: usize,
    pub why: Fault,
}

impl Malformed {
    // On a line of its own.
    pub fn tell(self, rt: &impl Print) -> io::Result<()> {
        form::fill(rt, b"malformed text at byte #: ", &[self.at as u64])?;
        print::word(rt, self.why.words().as_bytes())?;
        print::word(rt, b"\n")?;
        Ok(())
    }
}

// Why a run ends before its text does.
#[derive(Drop)]
pub enum Ended {
    Malformed(Malformed),
    Io(io::Error),
}

impl From<Malformed> for Ended {
    fn from(m: Malformed) -> Ended {
        Ended::Malformed(m)
    }
}

impl From<io::Error> for Ended {
    fn from(e: io::Error) -> Ended {
        Ended::Io(e)
    }
}

// A run that a malformed text ends is a run; what is wrong with the text is told.
pub fn tell(rt: &impl Print, run: Result<(), Ended>) -> io::Result<()> {
    match run {
        Ok(()) => Ok(()),
        Err(Ended::Malformed(m)) => m.tell(rt),
        Err(Ended::Io(e)) => Err(e),
    }
}
