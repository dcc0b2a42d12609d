/// What became of a case: where the next one starts, 0 where the file ends before the case does, and
/// whether the answers are the same.
#[derive(Clone, Copy, Debug, PartialEq, Eq)]
pub struct Compared {
    pub next: usize,
    pub same: bool,
}
