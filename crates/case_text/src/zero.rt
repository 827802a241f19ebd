use columns::Number;

// Whether a column is zero.
pub fn zero<T: Number>(xs: &[T]) -> bool {
    xs.iter().all(|x| x.wide() == 0)
}
