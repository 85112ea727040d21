// The worked lessons: what the definitions of a listing give for some small files.
ghost use Rattle.std.specs.Prelude.{◌≡◌};
ghost use Rattle.runner_tests.specs.WorkedLessons.{WorkedLessons};

// How many worked lessons there are. What they are is in the contract, all of them at once.
pub fn worked_lessons() -> u8
    ensures lessons { WorkedLessons }
    ensures number { result ≡ 5 }
{
    5
}
