// The numbers of a case beside its columns, and whether its lists are such that it can be built.
use crate::lists;
use case_text::arrays;
use case_text::fault::Fault;
use case_text::lists::of;
use rules::ReferencePolicy;

// The arrays of a case that have an entry for each object or each block at most.
pub const ROWS: usize = 4000;

pub const BLOCKS: usize = 1000;

#[derive(Clone, Copy)]
pub struct Numbers {
    pub raw: bool,
    pub soft: bool,
    pub weak: bool,
    pub names: usize,
    pub base: u64,
    pub size: usize,
    pub objects: usize,
    // Which of the case's sets of rooms is lent.
    pub set: usize,
    // Whether this is one of several policies.
    pub several: bool,
}

pub fn policy_of(n: Numbers) -> ReferencePolicy {
    ReferencePolicy {
        soft: n.soft,
        weak: n.weak,
    }
}

fn number(xs: &[u64], k: usize) -> u64 {
    xs.get(k).copied().unwrap_or(0)
}

pub fn numbers_of(words: &[u64], cuts: &[usize]) -> Numbers {
    let own = of(words, cuts, lists::NUMBERS);
    let ids = of(words, cuts, lists::IDS);
    Numbers {
        raw: number(own, 0) == 1,
        soft: number(own, 1) == 1,
        weak: number(own, 2) == 1,
        names: number(own, 3) as usize,
        base: number(own, 4),
        size: number(own, 5) as usize,
        objects: ids.len(),
        set: 0,
        several: false,
    }
}

// The policy is two numbers that are 0 or 1, or that are both 2: every policy.
fn sound_policy(soft: u64, weak: u64) -> bool {
    if soft == 2 {
        return weak == 2;
    }
    soft < 2 && weak < 2
}

// Six numbers, of which the route is 0 or 1.
fn sound_numbers(own: &[u64]) -> bool {
    if own.len() != 6 {
        return false;
    }
    own[0] < 2 && sound_policy(own[1], own[2])
}

// How many policies the case is built under.
pub fn policies_of(words: &[u64], cuts: &[usize]) -> usize {
    if number(of(words, cuts, lists::NUMBERS), 1) == 2 {
        4
    } else {
        1
    }
}

// The case under one of so many policies: of several neither kept, soft, weak, both; one is its own.
pub fn with_policy(mut n: Numbers, policies: usize, policy: usize) -> Numbers {
    if policies < 2 {
        return n;
    }
    n.soft = policy == 1 || policy == 3;
    n.weak = 2 <= policy;
    n.several = true;
    n
}

// The arrays that rooms are lent of, in the order of the rooms.
const MOST: [usize; 17] = [
    arrays::EDGES,
    arrays::EDGES,
    ROWS,
    ROWS,
    ROWS,
    ROWS,
    BLOCKS,
    ROWS,
    ROWS,
    ROWS,
    arrays::NAMED,
    arrays::NAMED,
    ROWS,
    ROWS,
    arrays::EDGES,
    arrays::NAMED,
    arrays::NAMED,
];

fn fits(k: usize, asked: u64) -> bool {
    let most = MOST[k % 17];
    asked <= most as u64
}

// One set of seventeen rooms or several, none of them over its array.
fn sound_rooms(asked: &[u64]) -> bool {
    !asked.is_empty()
        && asked.len() % 17 == 0
        && asked.iter().enumerate().all(|(k, room)| fits(k, *room))
}

// A set of rooms.
pub fn rooms_of<'a>(words: &'a [u64], cuts: &[usize], set: usize) -> &'a [u64] {
    let all = of(words, cuts, lists::ROOMS);
    if all.len() / 17 <= set {
        return &all[0..0];
    }
    let start = set * 17;
    &all[start..]
}

pub fn sets_of(words: &[u64], cuts: &[usize]) -> usize {
    of(words, cuts, lists::ROOMS).len() / 17
}

pub fn with_set(mut n: Numbers, set: usize) -> Numbers {
    n.set = set;
    n
}

fn pairs(xs: &[u32]) -> bool {
    xs.len() % 2 == 0
}

pub fn soundness(halves: &[u32], words: &[u64], cuts: &[usize]) -> Result<(), Fault> {
    if !sound_numbers(of(words, cuts, lists::NUMBERS)) {
        return Err(Fault::WrongNumbers);
    }
    if !sound_rooms(of(words, cuts, lists::ROOMS)) {
        return Err(Fault::WrongRooms);
    }
    if !pairs(of(halves, cuts, lists::FIELD)) {
        return Err(Fault::OddQuestions);
    }
    if !pairs(of(halves, cuts, lists::REFERENT)) {
        return Err(Fault::OddQuestions);
    }
    if !pairs(of(halves, cuts, lists::LABEL_OF)) {
        return Err(Fault::OddQuestions);
    }
    Ok(())
}
