ghost use Rattle.std.specs.Prelude.{◌≡◌, ℕ};
ghost use Rattle.registers.specs.Sets.{nobody};
ghost use Rattle.protocol.specs.declared.cell.Cell.TheVariants.{None as none};
ghost use Rattle.protocol.specs.declared.pages.HomeState.TheVariants.{R};
ghost use Rattle.protocol.specs.Rules.{page};
ghost use Rattle.calls.specs.Memory.{cells_of, pages_of};

use crate::record::{CellRecord, CellState};
use protocol::pages::{HomePage, HomeState};
use registers::register::Register;

// Every page has the same value and names nobody.
pub(crate) fn fill_home<V: Copy, D: Register>(home: &mut [HomePage<V, D>], value: V)
    ensures { (q : ℕ) → pages_of D.names value home.new q ≡ page value (R nobody) }
{
    let page = HomePage {
        value,
        state: HomeState::R(D::empty()),
    };
    home.fill_with(|| page);
}

// No station has a copy of any page; each record keeps the value that it had, which counts for nothing.
pub(crate) fn fill_cells<V: Copy>(cells: &mut [CellRecord<V>])
    ensures { (n pages s p : ℕ) → cells_of n pages cells.new s p ≡ none }
{
    for cell in cells.iter_mut() {
        *cell = CellRecord {
            state: CellState::None,
            value: cell.value,
        };
    }
}
