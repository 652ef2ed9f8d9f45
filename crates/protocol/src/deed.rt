ghost use Rattle.std.specs.Prelude.{◌≡◌};
ghost use Rattle.protocol.specs.Deeds.{account_of, fold_of};

// Whether the home still names a station that asks for the writing copy, because it had a reading copy: that copy is
// then folded into the request, and is not waited for.
#[derive(Clone, Copy, PartialEq, Eq, Debug)]
pub enum Fold {
    NoCopy,
    OwnCopy,
}

// The fold of a request, by whether the home names its station.
impl From<bool> for Fold {
    ghost from_gives = { λ named fold. fold ≡ fold_of named };

    fn from(named: bool) -> Fold {
        if named { Fold::OwnCopy } else { Fold::NoCopy }
    }
}

// What a granted firing did.
#[derive(Clone, Copy, PartialEq, Eq, Debug)]
pub enum Deed<V> {
    // The station's load is answered with this value.
    Loaded(V),
    // The station's store is answered.
    Stored,
    // The station asked for a copy.
    Asked,
    // The station received a copy.
    Received,
    // The station answered a recall, and no longer has the copy, or no longer the right to write.
    Yielded,
    // The home has the value back; the station keeps a reading copy.
    WrittenBack,
    // A copy is back at the home.
    Returned,
    // The home granted a reading copy.
    Shared(Fold),
    // The home granted the writing copy.
    Exclusive(Fold),
    // The home recalls the copies that stand in the way.
    Recalling(Fold),
}

impl<V> Deed<V> {
    // Whether the entry that the firing looked at leaves its lane or queue.
    pub fn leaves(&self) -> bool
        ensures { result ≡ (account_of self.now).leaves }
    {
        !matches!(self, Deed::Asked | Deed::Recalling(_))
    }
}
