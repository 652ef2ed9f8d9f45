ghost use Rattle.std.specs.Prelude.{◌≡◌, ◌+◌, ◌-◌, ◌%◌, ◌<◌, ◌≤◌};
ghost use Rattle.queues.specs.View.{most_places};
ghost use Rattle.queues.specs.Positions.{nothing, oldest_column, next_column};

// Where the entries of one row lie: the column of the oldest, and how many wait from there on. The bounds that its methods
// require stand once, and sharper, in the table's ghost fields; ghost fields here would say them twice.
#[derive(Clone, Copy)]
pub(crate) struct Position {
    pub(crate) oldest: usize,
    pub(crate) waiting: usize,
}

impl Position {
    // The position of a row in which nothing waits.
    pub(crate) fn empty() -> Position
        ensures { result ≡ nothing }
    {
        Position {
            oldest: 0,
            waiting: 0,
        }
    }

    // The column of the oldest entry, if one waits.
    pub(crate) fn oldest_column(&self) -> Option<usize>
        ensures { result ≡ oldest_column self.now }
    {
        if self.waiting > 0 {
            Some(self.oldest)
        } else {
            None
        }
    }

    // The column after the newest entry, if there is room.
    pub(crate) fn next_column(&self, places: usize) -> Option<usize>
        requires oldest { self.now.oldest < most_places }
        requires waiting { self.now.waiting ≤ most_places }
        ensures { result ≡ next_column places self.now }
    {
        if self.waiting < places {
            Some((self.oldest + self.waiting) % places)
        } else {
            None
        }
    }

    // One entry more waits.
    pub(crate) fn grow(&mut self)
        requires { self.old.waiting < most_places }
        ensures oldest { self.new.oldest ≡ self.old.oldest }
        ensures waiting { self.new.waiting ≡ self.old.waiting + 1 }
    {
        self.waiting += 1;
    }

    // The oldest entry waits no more.
    pub(crate) fn shrink(&mut self, places: usize)
        requires oldest { self.old.oldest < most_places }
        requires waiting { 0 < self.old.waiting }
        requires places { 0 < places }
        ensures oldest { self.new.oldest ≡ (self.old.oldest + 1) % places }
        ensures waiting { self.new.waiting ≡ self.old.waiting - 1 }
    {
        self.oldest = (self.oldest + 1) % places;
        self.waiting -= 1;
    }
}
