ghost use Rattle.std.specs.Prelude.{◌≡◌, ◌+◌, ◌*◌, ◌<◌, ◌≤◌, length, IfOk};
ghost use Rattle.std.specs.List.{slice_get};
ghost use Rattle.queues.specs.View.{most_rows, most_places, can_drop, after_drop, granted_if, empty_rows, made_rows};
ghost use Rattle.queues.specs.Positions.{OldestWithin, WaitingWithin, position_in};

use crate::denied::Denied;
use crate::position::Position;

// The most rows of a table, and the most places of a row.
pub const MOST_ROWS: usize = 48;

pub const MOST_PLACES: usize = 16;

// Which places of a list of entries are in use: rows of places, each used round and round. The positions are an array with
// the number of rows beside it by a rule of the project: a plain table of 48 small structs, and no heap.
#[derive(Drop)]
pub struct Table {
    rows: usize,
    places: usize,
    positions: [Position; MOST_ROWS],
    ghost few: { rows ≤ most_rows },
    ghost narrow: { places ≤ most_places },
    ghost sized: { length positions ≡ most_rows },
    ghost oldest_within: { OldestWithin places positions },
    ghost waiting_within: { WaitingWithin places positions },
}

impl Table {
    ghost use Rattle.queues.specs.Places.{places_of, places_in, Taking};

    // A table for so many entries, in which nothing waits; it has no row where the sizes do not fit.
    pub fn new(entries: usize, rows: usize, places: usize) -> Table
        ensures made { places_of result ≡ made_rows entries rows places }
        ensures enough { (places_of result).rows * (places_of result).places ≤ entries }
    {
        if rows > MOST_ROWS || places > MOST_PLACES || rows * places > entries {
            return Table::empty(0, 0);
        }
        Table::empty(rows, places)
    }

    // A table in which nothing waits.
    #[tactic(auto, using(crate::proofs::Tables::fresh_places))]
    fn empty(rows: usize, places: usize) -> Table
        requires few { rows ≤ most_rows }
        requires narrow { places ≤ most_places }
        ensures { places_of result ≡ empty_rows rows places }
    {
        Table {
            rows,
            places,
            positions: [Position::empty(); MOST_ROWS],
        }
    }

    // How many rows there are.
    pub fn rows(&self) -> usize
        ensures { result ≡ (places_of self.now).rows }
    {
        self.rows
    }

    // How many places each row has.
    pub fn places(&self) -> usize
        ensures { result ≡ (places_of self.now).places }
    {
        self.places
    }

    // How many entries wait in a row.
    pub fn waiting(&self, row: usize) -> usize
        ensures { result ≡ length ((places_of self.now).row row) }
    {
        self.position(row).waiting
    }

    // The place of the oldest entry of a row, if one waits.
    #[tactic(auto, using(crate::proofs::Tables::oldest_missing))]
    pub fn oldest(&self, row: usize) -> Option<usize>
        ensures { result ≡ slice_get ((places_of self.now).row row) 0 }
    {
        let column = self.position(row).oldest_column()?;
        Some(self.place(row, column))
    }

    // Takes the place after the newest entry of a row, where the new entry is then to be written; denied where
    // the row has no room or is not there.
    pub fn take_next(&mut self, row: usize) -> Result<usize, Denied>
        ensures { Taking row (places_of self.old) result (places_of self.new) }
    {
        if row >= self.rows {
            return Err(Denied);
        }
        let column = self.position(row).next_column(self.places).ok_or(Denied)?;
        self.positions[row].grow();
        Ok(self.place(row, column))
    }

    // Gives up the place of the oldest entry of a row; denied where nothing waits.
    #[tactic(auto, using(crate::proofs::Tables::given_up))]
    pub fn give_up_oldest(&mut self, row: usize) -> Result<(), Denied>
        ensures answer { result ≡ granted_if (can_drop (places_of self.old) row) }
        ensures after { places_of self.new ≡ after_drop (places_of self.old) row }
    {
        if self.position(row).waiting == 0 {
            return Err(Denied);
        }
        let places = self.places;
        self.positions[row].shrink(places);
        Ok(())
    }

    // How many rows there are over so many entries: none where they are too few for all rows. Whoever stores the entries may
    // lend fewer than the table was made for, and asks by this call and the four below, which then deny or find nothing.
    pub fn rows_over(&self, entries: usize) -> usize
        ensures { result ≡ (places_in entries self.now).rows }
    {
        if self.rows * self.places <= entries {
            self.rows
        } else {
            0
        }
    }

    // How many entries wait in a row over so many entries.
    #[tactic(auto, using(crate::proofs::Over::over_missing))]
    pub fn waiting_over(&self, entries: usize, row: usize) -> usize
        ensures { result ≡ length ((places_in entries self.now).row row) }
    {
        if row < self.rows_over(entries) {
            self.waiting(row)
        } else {
            0
        }
    }

    // The place of the oldest entry of a row over so many entries, if one waits.
    #[tactic(auto, using(crate::proofs::Over::over_missing))]
    pub fn oldest_over(&self, entries: usize, row: usize) -> Option<usize>
        ensures { result ≡ slice_get ((places_in entries self.now).row row) 0 }
    {
        if self.waiting_over(entries, row) > 0 {
            self.oldest(row)
        } else {
            None
        }
    }

    // Takes the place after the newest entry of a row, one of so many entries; denied also where these are too few.
    pub fn take_next_over(&mut self, entries: usize, row: usize) -> Result<usize, Denied>
        ensures taking { Taking row (places_in entries self.old) result (places_in entries self.new) }
        ensures inside { IfOk result (λ place. place < entries) }
    {
        if row >= self.rows_over(entries) {
            return Err(Denied);
        }
        self.take_next(row)
    }

    // Gives up the place of the oldest entry of a row over so many entries; denied also where these are too few.
    #[tactic(auto, using(crate::proofs::Over::over_missing))]
    pub fn give_up_oldest_over(&mut self, entries: usize, row: usize) -> Result<(), Denied>
        ensures answer { result ≡ granted_if (can_drop (places_in entries self.old) row) }
        ensures after { places_in entries self.new ≡ after_drop (places_in entries self.old) row }
    {
        if self.waiting_over(entries, row) == 0 {
            return Err(Denied);
        }
        self.give_up_oldest(row)
    }

    // The position of a row; nothing waits in a row that is not there.
    fn position(&self, row: usize) -> Position
        ensures is { result ≡ position_in self.now.rows self.now.positions row }
        ensures count { result.waiting ≡ length ((places_of self.now).row row) }
    {
        if row < self.rows {
            self.positions[row]
        } else {
            Position::empty()
        }
    }

    // The place of a row's column.
    fn place(&self, row: usize, column: usize) -> usize
        requires row { row < most_rows }
        requires column { column < most_places }
        ensures { result ≡ row * self.now.places + column }
    {
        row * self.places + column
    }
}
