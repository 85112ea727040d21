// What the hub asks of a message.
ghost use Rattle.std.specs.Prelude.{◌≡◌, ℕ};

// A message tells the pad that it came from and its kind, each a byte. A kind is a number here, and no enum, since each
// type of messages has kinds of its own, which listings and other programs know by number.
// The ghost members are functions of the message, so the same message always tells the same.
pub trait Message: Copy {
    ghost pad: { Self → ℕ };

    ghost kind: { Self → ℕ };

    fn pad(&self) -> u8
        ensures { result ≡ pad self.now };

    fn kind(&self) -> u8
        ensures { result ≡ kind self.now };
}

// A timed message also tells its interval: within how many hub cycles it has to be dispatched, 0 to 255.
pub trait Timed: Message {
    ghost interval: { Self → ℕ };

    fn interval(&self) -> u8
        ensures { result ≡ interval self.now };
}
