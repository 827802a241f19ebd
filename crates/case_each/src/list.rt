// The list that is asked: the objects of the case's field questions, which are pairs of an object and a label.

// So many questions are looked at.
pub(crate) const MOST: usize = 64;

// The objects that are taken, in order, as far as there is room; how many they are.
pub(crate) fn objects<F: Fn(u32) -> bool>(pairs: &[u32], takes: F, list: &mut [u32]) -> usize
    requires { F.IsAlwaysCallable takes }
{
    let mut n = 0;
    for i in 0..pairs.len() / 2 {
        let object = pairs[2 * i];
        if n < list.len() && takes(object) {
            list[n] = object;
            n += 1;
        }
    }
    n
}

fn label_at(pairs: &[u32], i: usize) -> u32 {
    if i < pairs.len() / 2 {
        pairs[2 * i + 1]
    } else {
        0
    }
}

// The labels asked: those of the first, the middle and the last question.
pub(crate) fn labels(pairs: &[u32]) -> [u32; 3] {
    let count = pairs.len() / 2;
    [
        label_at(pairs, 0),
        label_at(pairs, count / 2),
        label_at(pairs, count.saturating_sub(1)),
    ]
}
