// One offset read back from its four columns. `store` codes them, and passes this on.
#![tactic(auto)]

mod read;

ghost use Rattle.std.specs.Prelude.{◌≡◌};
ghost use Rattle.store_read.specs.Back.{offset_says, blocked_in, read_back};

pub use read::short_at;

// What is refused where columns are read back: a number past the end; or columns that no build leaves, with the number asked.
#[derive(Clone, Copy)]
pub enum ReadError {
    Index(usize),
    Columns(usize),
}

// Offsets as they are kept: the bases of blocks, short numbers above them, and by place the numbers that are kept whole.
#[derive(Clone, Copy)]
pub struct Offsets<'a> {
    pub bases: &'a [u64],
    pub short: &'a [u16],
    pub long_at: &'a [u32],
    pub long_value: &'a [u64],
}

impl<'a> Offsets<'a> {
    // The number at i. A long row is found by bisection.
    pub fn at(self, i: usize) -> Result<u64, ReadError>
        ensures { offset_says result ≡ read_back (blocked_in self.entry) i }
    {
        if self.short.len() <= i {
            return Err(ReadError::Index(i));
        }
        let s = self.short[i];
        if s == 65535 {
            read::long_at(self.long_at, self.long_value, i)
        } else {
            read::short_at(self.bases, s, i)
        }
    }
}
