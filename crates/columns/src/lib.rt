// Columns of plain numbers: zeros from a place on, and the place of a number in a column that rises.
#![tactic(auto)]

ghost use Rattle.std.specs.Prelude.{◌≡◌, ℕ, ◌+◌, ◌≤◌, ◌<◌, ◌-◌, ◌/◌, List, ◌++◌, length, map, take, replicate, refl};
ghost use Rattle.std.specs.Ordering.{nat_cmp};
ghost use Rattle.columns.specs.Columns.{cleared};
ghost use Rattle.columns.specs.Ranks.{Ranked, front, halve, bisect};
ghost use Rattle.columns.specs.Numbers.{mapped, clears};

// An unsigned number of any width that a column holds.
pub trait Number: Copy + Ord {
    // The number that a value is, those of a column, and a column with zeros from a place on.
    ghost number: { Self → ℕ };

    ghost numbers: { List Self → List ℕ };

    ghost nothing: { Self };

    ghost cleared: { ℕ → List Self → List Self };

    fn zero() -> Self
        ensures { result ≡ nothing };

    fn wide(self) -> u64
        ensures { result ≡ number self };

    ghost copies: { (x : Self) → Self.is_infallible x × ((y : Self) → Self.is_clone x y → y ≡ x) };

    ghost mapped: { (xs : List Self) → numbers xs ≡ map number xs };

    ghost orders: { (x y : Self) → Self.cmp x y ≡ nat_cmp (number x) (number y) };

    ghost clears: { (from : ℕ) (xs : List Self) → cleared from xs ≡ take from xs ++ replicate (length xs - from) nothing };
}

impl Number for u8 {
    ghost number = { λ x. x };

    ghost numbers = { λ xs. xs };

    ghost nothing = { 0 };

    ghost cleared = { cleared };

    ghost copies = { λ x. (tt, λ y e. e) };

    ghost mapped = { mapped };

    ghost orders = { λ x y. refl };

    ghost clears = { clears };

    fn zero() -> u8 {
        0
    }

    fn wide(self) -> u64 {
        self as u64
    }
}

impl Number for u16 {
    ghost number = { λ x. x };

    ghost numbers = { λ xs. xs };

    ghost nothing = { 0 };

    ghost cleared = { cleared };

    ghost copies = { λ x. (tt, λ y e. e) };

    ghost mapped = { mapped };

    ghost orders = { λ x y. refl };

    ghost clears = { clears };

    fn zero() -> u16 {
        0
    }

    fn wide(self) -> u64 {
        self as u64
    }
}

impl Number for u32 {
    ghost number = { λ x. x };

    ghost numbers = { λ xs. xs };

    ghost nothing = { 0 };

    ghost cleared = { cleared };

    ghost copies = { λ x. (tt, λ y e. e) };

    ghost mapped = { mapped };

    ghost orders = { λ x y. refl };

    ghost clears = { clears };

    fn zero() -> u32 {
        0
    }

    fn wide(self) -> u64 {
        self as u64
    }
}

impl Number for u64 {
    ghost number = { λ x. x };

    ghost numbers = { λ xs. xs };

    ghost nothing = { 0 };

    ghost cleared = { cleared };

    ghost copies = { λ x. (tt, λ y e. e) };

    ghost mapped = { mapped };

    ghost orders = { λ x y. refl };

    ghost clears = { clears };

    fn zero() -> u64 {
        0
    }

    fn wide(self) -> u64 {
        self
    }
}

pub fn zero<T: Number>(d: &mut [T], from: usize)
    ensures { d.new ≡ T.cleared from d.old }
{
    if from < d.len() {
        d[from..].fill(T::zero());
    }
}

// A number of 32 bits as a place. Not `usize::try_from`, whose error no caller could meet; `as` would do, but the callers' proofs go by this call.
pub fn index(x: u32) -> usize
    ensures { result ≡ x }
{
    x as usize
}

// One halving of the n numbers from lo on: where the half that is left starts. Both ways on are numbers at hand, so the processor need not guess.
fn front<T: Number>(xs: &[T], x: u64, lo: usize, n: usize) -> usize
    requires { lo + n / 2 < length (T.numbers xs.now) }
    ensures { result ≡ front (T.numbers xs.now) x lo n }
{
    let middle = lo + n / 2;
    if xs[middle].wide() < x { middle } else { lo }
}

// Two halvings. The numbers on both ways on are read at once, so that none waits for the one before: in a long column those waits are most of the time.
fn two<T: Number>(xs: &[T], x: u64, lo: usize, n: usize) -> usize
    requires { (0 < n) × (lo + n ≤ length (T.numbers xs.now)) }
    ensures { result ≡ halve 2 (T.numbers xs.now) x lo n }
{
    let middle = lo + n / 2;
    let half = n - n / 2;
    let below = front(xs, x, lo, half);
    let above = front(xs, x, middle, half);
    if xs[middle].wide() < x { above } else { below }
}

// Three halvings; one number is not halved.
fn three<T: Number>(xs: &[T], x: u64, lo: usize, n: usize) -> usize
    requires { (0 < n) × (lo + n ≤ length (T.numbers xs.now)) }
    ensures { result ≡ halve 3 (T.numbers xs.now) x lo n }
{
    if n == 1 {
        return lo;
    }
    let middle = lo + n / 2;
    let half = n - n / 2;
    let below = two(xs, x, lo, half);
    let above = two(xs, x, middle, half);
    if xs[middle].wide() < x { above } else { below }
}

// Where bisection ends, on any column: what a reader of columns that may hold anything goes by. In a loop a compiler turns a choice of numbers into
// branches, of which half are guessed wrong. So the last twelve halvings, and there are seldom more, stand in a row, by threes.
pub fn bisect<T: Number>(xs: &[T], x: u64) -> usize
    ensures { result ≡ bisect (T.numbers xs.now) x }
{
    let mut lo = 0;
    let mut n = xs.len();
    if n == 0 {
        return 0;
    }
    while 4096 < n {
        lo = front(xs, x, lo, n);
        n -= n / 2;
    }
    let some = (n + 7) / 8;
    let few = (some + 7) / 8;
    let last = (few + 7) / 8;
    let a = three(xs, x, lo, n);
    let b = three(xs, x, a, some);
    let c = three(xs, x, b, few);
    let p = three(xs, x, c, last);
    if xs[p].wide() < x { p + 1 } else { p }
}

// How many numbers of a column that rises are below x. Of another column nothing is said but that the place is inside, so the way there is free.
pub fn rank<T: Number>(xs: &[T], x: u64) -> usize
    ensures { Ranked (T.numbers xs.now) x result }
{
    bisect(xs, x)
}
