// What a dispatcher tells without a call.
ghost use Rattle.std.specs.Prelude.{◌≡◌};
ghost use Rattle.dispatcher.specs.Views.{view};

use crate::dispatcher::Dispatcher;
use banks::bank::Bank;
use messages::message::Timed;

impl<B: Bank> Dispatcher<B>
where
    B::Item: Timed,
{
    // Whether it has been opened.
    pub fn is_open(&self) -> bool
        ensures { result ≡ (view self.now).is_open }
    {
        self.ring.is_some()
    }

    // The cycle that it is in.
    pub fn cycle(&self) -> u32
        ensures { result ≡ (view self.now).cycle }
    {
        self.cycle
    }
}
