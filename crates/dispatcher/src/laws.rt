// The laws of whole runs of the machine, for messages of any type M. Each is the contract of a function that does nothing.
ghost use Rattle.dispatcher.specs.Theorems.{AccountsForAll, LeastLate, TellsWhatHappened, WarnsExactly};

// The late count is that of the machine's own dispatches, and no service order has fewer late posts.
pub fn late_count_is_least<M>()
    ensures { LeastLate M }
{}

// A warning names nothing exactly when the services that it was told could meet every pending deadline.
pub fn warnings_are_exact<M>()
    ensures { WarnsExactly M }
{}

// Each receipt stands exactly once among dispatches, namings, and entries that are pending or wait.
pub fn receipts_are_accounted_for<M>()
    ensures { AccountsForAll M }
{}

// The history is of the calls that were made, in their order.
pub fn history_is_of_the_calls<M>()
    ensures { TellsWhatHappened M }
{}
