// Reading the text of the cases: its marks, its numbers, and the items of a list. Every function is total: past the end of the text there is nothing.

// What the search for the next mark stops at.
#[derive(Clone, Copy)]
pub enum Mark {
    Title,
    List,
    Item,
}

impl Mark {
    fn stops_at(self, b: u8) -> bool {
        match self {
            Mark::Title => b == b'"',
            Mark::List => matches!(b, b'[' | b'"'),
            Mark::Item => matches!(b, b']' | b'*' | b'+' | b'"' | b'0'..=b'9'),
        }
    }
}

// A number in the text and the place behind it.
#[derive(Clone, Copy)]
pub struct Number {
    pub value: u64,
    pub next: usize,
}

// An item of a list: so many numbers, the first of them, the step from each to the next, and the place behind the item.
#[derive(Clone, Copy)]
pub struct Item {
    pub count: u64,
    pub first: u64,
    pub step: u64,
    pub next: usize,
}

// The byte at a place; 0 past the end.
pub fn byte(text: &[u8], at: usize) -> u8 {
    text.get(at).copied().unwrap_or(0)
}

pub fn behind(text: &[u8], at: usize) -> usize {
    if at < text.len() { at + 1 } else { at }
}

// The first place from `at` on whose byte is such; the end of the text where there is none.
pub fn find<F: Fn(u8) -> bool>(text: &[u8], at: usize, is: F) -> usize
    requires { F.IsAlwaysCallable is }
{
    for i in at..text.len() {
        if is(text[i]) {
            return i;
        }
    }
    text.len()
}

// The first place from `at` on where a search for a mark stops; the end of the text where there is none.
pub fn seek(text: &[u8], at: usize, mark: Mark) -> usize {
    find(text, at, |b| mark.stops_at(b))
}

fn digit(b: u8) -> Option<u64> {
    match b {
        b'0'..=b'9' => Some(u64::from(b - b'0')),
        _ => None,
    }
}

// A number from its first place up to the place behind it, unless it has no digit.
fn number_to(value: u64, at: usize, next: usize) -> Option<Number> {
    if at < next {
        Some(Number { value, next })
    } else {
        None
    }
}

// The number that begins at a place, if a digit stands there and the number fits in 64 bits.
fn number_at(text: &[u8], at: usize) -> Option<Number> {
    let mut value: u64 = 0;
    for i in at..text.len() {
        let Some(d) = digit(text[i]) else {
            return number_to(value, at, i);
        };
        value = value.checked_mul(10)?.checked_add(d)?;
    }
    number_to(value, at, text.len())
}

// The item that begins at a place: a number, `n*x` or `n*x+d`.
pub fn item_at(text: &[u8], at: usize) -> Option<Item> {
    let n = number_at(text, at)?;
    if byte(text, n.next) != b'*' {
        return Some(Item {
            count: 1,
            first: n.value,
            step: 0,
            next: n.next,
        });
    }
    let x = number_at(text, behind(text, n.next))?;
    if byte(text, x.next) != b'+' {
        return Some(Item {
            count: n.value,
            first: x.value,
            step: 0,
            next: x.next,
        });
    }
    let d = number_at(text, behind(text, x.next))?;
    Some(Item {
        count: n.value,
        first: x.value,
        step: d.value,
        next: d.next,
    })
}
