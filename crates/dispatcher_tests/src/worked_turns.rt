// The worked turns: what the rules give for some small lessons.
ghost use Rattle.std.specs.Prelude.{◌≡◌};
ghost use Rattle.dispatcher_tests.specs.WorkedTurns.{WorkedTurns};

// How many worked turns there are. What they are is in the contract, all of them at once.
pub fn worked_turns() -> u8
    ensures turns { WorkedTurns }
    ensures number { result ≡ 11 }
{
    11
}
