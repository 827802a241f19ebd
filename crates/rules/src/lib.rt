// The types that all crates name: labels, kinds, the policy, refusals and answers. specs/Types.antt gives document 01's number and values for each.
#![tactic(auto)]

ghost use Rattle.std.specs.Prelude.{◌≡◌};
ghost use Rattle.store_read.specs.Back.{read_error_says};
ghost use Rattle.rules.specs.Types.{loader_label, element_label, is_element, keeps, list_error_says};

pub use store_read::ReadError;

// A field's label is its name; the loader and the elements come behind all names.
#[derive(Clone, Copy)]
pub struct Label(pub u32);

impl Label {
    pub const LOADER: u32 = 2147483647;

    pub const ARRAY_ELEMENT: u32 = 2147483648;

    pub fn field(name: u32) -> Label
        ensures { result.0 ≡ name }
    {
        Label(name)
    }

    pub fn loader() -> Label
        ensures { result.0 ≡ loader_label }
    {
        Label(Label::LOADER)
    }

    // An index has 31 bits.
    pub fn element(index: u32) -> Label
        ensures { result.0 ≡ element_label index }
    {
        Label(Label::ARRAY_ELEMENT + index % Label::ARRAY_ELEMENT)
    }

    pub fn is_element(self) -> bool
        ensures { result ≡ is_element self.0 }
    {
        self.0 >= Label::ARRAY_ELEMENT
    }
}

// The kinds of objects. A column holds them as these numbers, in this order from 0.
#[derive(Clone, Copy)]
pub enum Kind {
    Instance,
    ObjectArray,
    PrimitiveArray,
    Class,
}

// The reference kinds of classes, likewise.
#[derive(Clone, Copy)]
pub enum RefKind {
    None,
    Soft,
    Weak,
    Phantom,
    Final,
}

// Which referents count as strongly held.
#[derive(Clone, Copy)]
pub struct ReferencePolicy {
    pub soft: bool,
    pub weak: bool,
}

impl ReferencePolicy {
    pub fn keeps(self, kind: u8) -> bool
        ensures { result ≡ keeps self kind }
    {
        if kind == RefKind::Soft as u8 {
            self.soft
        } else {
            self.weak
        }
    }
}

// One case for each refusal number, with its place. The checks answer the places of an input that may be built, or this; a build its counts, or this.
#[derive(Clone, Copy)]
pub enum Refusal {
    Lengths,
    Limit,
    Object(usize),
    Class(usize),
    Copied(usize),
    Span(usize),
    Root(usize),
    Places,
    Room(usize),
    Parts { column: usize, position: usize },
    Index(usize),
    Columns(usize),
}

// The used lengths that a build returns, and how many ids no object has.
#[derive(Clone, Copy)]
pub struct Counts {
    pub edges: usize,
    pub weak: usize,
    pub roots: usize,
    pub long: usize,
    pub fields: usize,
    pub escapes: usize,
    pub dangling: u64,
}

// Where the edges of an object sit in the target column, or its pairs among the weak pairs.
#[derive(Clone, Copy)]
pub struct Span {
    pub start: usize,
    pub end: usize,
}

// What a question refuses that writes into lists lent: too little room, or what reading the columns back refuses.
#[derive(Clone, Copy)]
pub enum ListError {
    Room(usize),
    Index(usize),
    Columns(usize),
}

impl From<ReadError> for ListError {
    ghost from_gives = { λ e l. list_error_says l ≡ read_error_says e };

    fn from(e: ReadError) -> ListError {
        match e {
            ReadError::Index(i) => ListError::Index(i),
            ReadError::Columns(o) => ListError::Columns(o),
        }
    }
}

// How many entries and long rows there are after inverting.
#[derive(Clone, Copy)]
pub struct Inverse {
    pub entries: usize,
    pub long: usize,
}

#[derive(Clone, Copy)]
pub enum InvertError {
    Room(usize),
    Columns(usize),
}

// An entry of an object: the object that refers to it, and the place of the edge in the target column.
#[derive(Clone, Copy)]
pub struct Entry {
    pub source: u32,
    pub place: u32,
}
