// Who points here: the questions on the incoming side of a graph, over the used parts of its columns, writing nothing. Objects are counted by the short offsets.
#![tactic(auto)]

ghost use Rattle.std.specs.Prelude.{◌≡◌, ◌≤◌, length};
ghost use Rattle.rules.specs.Types.{span_says, edge_count_says, entry_says};
ghost use Rattle.ask_span.specs.Reading.{count_of};
ghost use Rattle.incoming_ask.specs.Entries.{incoming_in, in_span, entry_in, entry_of};

// The sources or the places of an object's entries, as a part of their column, by the span that `span` gave.
pub use ask_span::part_of;
use rules::{Entry, ReadError, Span};
use store::Offsets;

// The incoming side of a graph: the sources and the places of the entries, and where each object's begin.
#[derive(Clone, Copy)]
pub struct Incoming<'a> {
    pub sources: &'a [u32],
    pub places: &'a [u32],
    pub offsets: Offsets<'a>,
}

// Entry k of those from `start` up to `end`, each of so many objects.
#[tactic(auto, unfolding(crate::specs::Entries::entry_in))]
fn stands_at(
    sources: &[u32],
    places: &[u32],
    start: usize,
    end: usize,
    objects: usize,
    object: usize,
    k: usize,
) -> Result<Entry, ReadError>
    requires { (start ≤ end) × (end ≤ length sources.now) × (end ≤ length places.now) }
    ensures { entry_says result ≡ entry_in sources.now places.now start end objects object k }
{
    if end - start <= k {
        return Err(ReadError::Index(k));
    }
    let source = sources[start + k];
    if objects <= columns::index(source) {
        return Err(ReadError::Columns(object));
    }
    Ok(Entry {
        source,
        place: places[start + k],
    })
}

impl<'a> Incoming<'a> {
    // Where the entries of an object stand among the sources and the places.
    pub fn span(self, object: usize) -> Result<Span, ReadError>
        ensures { span_says result ≡ in_span (incoming_in self.entry) object }
    {
        ask_span::span_within(self.offsets, self.sources.len(), self.places.len(), object)
    }

    // How many edges go to an object: 0 says that nobody holds it.
    pub fn in_degree(self, object: usize) -> Result<usize, ReadError>
        ensures { edge_count_says result ≡ count_of (in_span (incoming_in self.entry) object) }
    {
        ask_span::count_within(self.offsets, self.sources.len(), self.places.len(), object)
    }

    // Entry k of an object: who refers to it, and the place of that edge in the target column.
    #[tactic(auto, unfolding(crate::specs::Entries::entry_of, columns::specs::Columns::accepts))]
    pub fn entry_at(self, object: usize, k: usize) -> Result<Entry, ReadError>
        ensures { entry_says result ≡ entry_of (incoming_in self.entry) object k }
    {
        let at = self.span(object)?;
        let objects = self.offsets.short.len() - 1;
        stands_at(
            self.sources,
            self.places,
            at.start,
            at.end,
            objects,
            object,
            k,
        )
    }
}
