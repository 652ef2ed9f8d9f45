ghost use Rattle.coherence.specs.Promise.{EveryHistoryKeepsThePromise};
ghost use Rattle.coherence.specs.Sequential.{HistoriesAreSequential};

// Every history keeps the promise.
pub fn every_history_keeps_the_promise<V>()
    ensures { EveryHistoryKeepsThePromise V }
{}

// The answers of every history, in the order in which they came, are a sequential order.
pub fn histories_are_sequential<V>()
    ensures { HistoriesAreSequential V }
{}
