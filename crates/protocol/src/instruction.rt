// What a station is to do with a page. It is no Option, since a load misses no value: it asks for one.
#[derive(Clone, Copy, PartialEq, Eq, Debug)]
pub enum Access<V> {
    Load,
    Store(V),
}

// An access to one page. The page stands apart from the access, as in a message, since every instruction has one.
#[derive(Clone, Copy, PartialEq, Eq, Debug)]
pub struct Instruction<V> {
    pub page: usize,
    pub access: Access<V>,
}
