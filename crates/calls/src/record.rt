// Whether a station holds a copy of a page, and which.
#[derive(Clone, Copy)]
pub enum CellState {
    None,
    Sh,
    Ex,
    Pend,
}

// A cell as it lies in the lent table: the value counts where there is a copy. It is a state with a value beside it by a
// rule of the project: a record is read field by field and written whole. What it means is a `Cell`.
#[derive(Clone, Copy)]
pub struct CellRecord<V> {
    pub state: CellState,
    pub value: V,
}
