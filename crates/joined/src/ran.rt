// What came out of some steps, and how many times the cipher ran for it (document 02, wish 6).
#[derive(Clone, Copy)]
pub struct Ran<T> {
    pub value: T,
    pub runs: usize,
}
