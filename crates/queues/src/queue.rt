ghost use Rattle.std.specs.Prelude.{◌≡◌, ◌*◌, ◌≤◌, length};
ghost use Rattle.std.specs.List.{slice_get};
ghost use Rattle.queues.specs.View.{can_put, after_put, can_drop, after_drop, granted_if, made_rows};

use crate::denied::Denied;
use crate::table::Table;

// Queues over a lent slice of entries: rows in which entries wait, the oldest first. The slice is lent by a rule of the
// project. What queues mean has a function in it, the rows by their numbers, so it is a definition and no `Model`.
#[derive(Drop)]
pub struct Queues<'a, T> {
    entries: &'a mut [T],
    table: Table,
    ghost enough: { table.rows * table.places ≤ length entries.now },
}

impl<'a, T: Copy> Queues<'a, T> {
    ghost use Rattle.queues.specs.Places.{view_of};

    // Queues in which nothing waits, whatever the entries were; they have no row where the sizes do not fit.
    pub fn new(entries: &'a mut [T], rows: usize, places: usize) -> Self
        ensures { view_of result ≡ made_rows (length entries.old) rows places }
    {
        let table = Table::new(entries.len(), rows, places);
        Queues { entries, table }
    }

    // How many rows there are.
    pub fn rows(&self) -> usize
        ensures { result ≡ (view_of self.now).rows }
    {
        self.table.rows()
    }

    // How many entries each row has room for.
    pub fn places(&self) -> usize
        ensures { result ≡ (view_of self.now).places }
    {
        self.table.places()
    }

    // How many entries wait in a row.
    #[tactic(auto, using(crate::proofs::Entries::waiting_view))]
    pub fn waiting(&self, row: usize) -> usize
        ensures { result ≡ length ((view_of self.now).row row) }
    {
        self.table.waiting(row)
    }

    // The oldest entry of a row, if one waits.
    #[tactic(auto, using(crate::proofs::Entries::oldest_views))]
    pub fn oldest(&self, row: usize) -> Option<T>
        ensures { result ≡ slice_get ((view_of self.now).row row) 0 }
    {
        let place = self.table.oldest(row)?;
        Some(self.entries[place])
    }

    // Puts an entry last in a row; denied where the row has no room or is not there.
    #[tactic(auto, using(crate::proofs::Entries::put_views))]
    pub fn put(&mut self, row: usize, newest: T) -> Result<(), Denied>
        ensures answer { result ≡ granted_if (can_put (view_of self.old) row) }
        ensures after { view_of self.new ≡ after_put (view_of self.old) row newest }
    {
        let place = self.table.take_next(row)?;
        self.entries[place] = newest;
        Ok(())
    }

    // Drops the oldest entry of a row; denied where nothing waits.
    #[tactic(auto, using(crate::proofs::Entries::drop_views))]
    pub fn drop_oldest(&mut self, row: usize) -> Result<(), Denied>
        ensures answer { result ≡ granted_if (can_drop (view_of self.old) row) }
        ensures after { view_of self.new ≡ after_drop (view_of self.old) row }
    {
        self.table.give_up_oldest(row)
    }
}
