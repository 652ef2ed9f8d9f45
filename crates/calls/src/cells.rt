ghost use Rattle.std.specs.Prelude.{◌≡◌};
ghost use Rattle.calls.specs.Memory.{cell_of};

use crate::record::{CellRecord, CellState};
use protocol::cell::Cell;

impl<V: Copy> CellRecord<V> {
    // The cell that the record means, read field by field, and so no `From` of a whole record.
    pub(crate) fn cell(&self) -> Cell<V>
        ensures { result ≡ cell_of self.now }
    {
        match self.state {
            CellState::None => Cell::None,
            CellState::Sh => Cell::Sh(self.value),
            CellState::Ex => Cell::Ex(self.value),
            CellState::Pend => Cell::Pend,
        }
    }

    // A record that means the cell; where there is no copy it keeps a value that counts for nothing, so it is no `From` either.
    pub(crate) fn of(cell: Cell<V>, kept: V) -> CellRecord<V>
        ensures { cell_of result ≡ cell }
    {
        let (state, value) = match cell {
            Cell::None => (CellState::None, kept),
            Cell::Sh(value) => (CellState::Sh, value),
            Cell::Ex(value) => (CellState::Ex, value),
            Cell::Pend => (CellState::Pend, kept),
        };
        CellRecord { state, value }
    }
}
