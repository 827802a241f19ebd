// The questions of `Graph` about where an object's edges and weak pairs sit: over the used parts of a graph's columns, writing nothing.
// The parts and the weak rows are read in crates of their own, and have their names here.
#![tactic(auto)]

ghost use Rattle.std.specs.Prelude.{◌≡◌, ℕ, List, [], ◌∷◌};
ghost use Rattle.store.specs.Blocked.{offset_says};
ghost use Rattle.store_read.specs.Back.{blocked_in};
ghost use Rattle.rules.specs.Types.{span_says, edge_count_says};
ghost use Rattle.ask_span.specs.Reading.{ReadsBack, spanned, span_of, ended, count_of};
ghost use Rattle.ask_span.specs.Graph.{span_in, graph_in, strong_in, strong};

pub use ask_part::part_of;
pub use ask_weak::weak_referents;
use labels::Codes;
use rules::{ReadError, Span};
use store::Offsets;

// The columns of a graph that say its edges: whose each is, by the offsets, where it goes, and its label.
#[derive(Clone, Copy)]
pub struct Strong<'a> {
    pub offsets: Offsets<'a>,
    pub targets: &'a [u32],
    pub labels: Codes<'a>,
}

// All columns of a graph: those of its edges, and its weak pairs.
#[derive(Clone, Copy)]
pub struct Graph<'a> {
    pub offsets: Offsets<'a>,
    pub targets: &'a [u32],
    pub labels: Codes<'a>,
    pub weak_from: &'a [u32],
    pub weak_to: &'a [u32],
}

// A span that does not fall and ends within codes and targets.
fn within(
    start: u64,
    end: u64,
    codes: usize,
    targets: usize,
    object: usize,
) -> Result<Span, ReadError>
    ensures { span_says result ≡ ended (0 ∷ start ∷ []) (0 ∷ end ∷ []) codes targets object }
{
    if end < start {
        return Err(ReadError::Columns(object));
    }
    if (codes as u64) < end {
        return Err(ReadError::Columns(object));
    }
    if (targets as u64) < end {
        return Err(ReadError::Columns(object));
    }
    Ok(Span {
        start: start as usize,
        end: end as usize,
    })
}

// From the two offsets of an object to its span.
pub fn between(
    first: Result<u64, ReadError>,
    next: Result<u64, ReadError>,
    codes: usize,
    targets: usize,
    object: usize,
) -> Result<Span, ReadError>
    ensures { span_says result ≡ ended (offset_says first) (offset_says next) codes targets object }
{
    let Ok(start) = first else {
        return Err(ReadError::Columns(object));
    };
    let Ok(end) = next else {
        return Err(ReadError::Columns(object));
    };
    within(start, end, codes, targets, object)
}

// The span of an object, by its two of so many offsets, which `offset` reads, in two columns of so many codes and targets.
#[inline(always)]
pub fn span_by<F: Fn(usize) -> Result<u64, ReadError>>(
    offset: F,
    offsets: usize,
    codes: usize,
    targets: usize,
    object: usize,
) -> Result<Span, ReadError>
    requires { F.IsAlwaysCallable offset }
    ensures { (back : ℕ → List ℕ) → ReadsBack (F.post offset) back → span_says result ≡ spanned back offsets codes targets object }
{
    if offsets <= object {
        return Err(ReadError::Index(object));
    }
    if offsets - object < 2 {
        return Err(ReadError::Index(object));
    }
    let first = offset(object);
    let next = offset(object + 1);
    between(first, next, codes, targets, object)
}

// The span of an object, in two columns of so many codes and targets. Whoever has entries by offsets asks it, too.
pub fn span_within(
    offsets: Offsets<'_>,
    codes: usize,
    targets: usize,
    object: usize,
) -> Result<Span, ReadError>
    ensures { span_says result ≡ span_of (blocked_in offsets.entry) codes targets object }
{
    span_by(
        |i| offsets.at(i),
        offsets.short.len(),
        codes,
        targets,
        object,
    )
}

// How long that span is.
pub fn count_within(
    offsets: Offsets<'_>,
    codes: usize,
    targets: usize,
    object: usize,
) -> Result<usize, ReadError>
    ensures { edge_count_says result ≡ count_of (span_of (blocked_in offsets.entry) codes targets object) }
{
    let at = span_within(offsets, codes, targets, object)?;
    Ok(at.end - at.start)
}

impl<'a> Strong<'a> {
    // Where the edges of an object sit in the target column.
    pub fn span(self, object: usize) -> Result<Span, ReadError>
        ensures { span_says result ≡ span_in (strong_in self.entry) object }
    {
        span_within(
            self.offsets,
            self.labels.codes.len(),
            self.targets.len(),
            object,
        )
    }

    // How many edges an object has.
    pub fn edge_count(self, object: usize) -> Result<usize, ReadError>
        ensures { edge_count_says result ≡ count_of (span_in (strong_in self.entry) object) }
    {
        count_within(
            self.offsets,
            self.labels.codes.len(),
            self.targets.len(),
            object,
        )
    }
}

impl<'a> Graph<'a> {
    // The columns of the edges alone.
    pub fn strong(self) -> Strong<'a>
        ensures { strong_in result ≡ strong (graph_in self.entry) }
    {
        Strong {
            offsets: self.offsets,
            targets: self.targets,
            labels: self.labels,
        }
    }
}
