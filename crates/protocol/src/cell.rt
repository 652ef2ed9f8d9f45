// What a station holds of a page: nothing, a reading copy, the writing copy, or nothing while it waits for a copy.
#[derive(Clone, Copy, PartialEq, Eq, Debug)]
pub enum Cell<V> {
    None,
    Sh(V),
    Ex(V),
    Pend,
}
