// The head of a tray.
ghost use Rattle.std.specs.Prelude.{◌≡◌, ◌+◌, ◌%◌, ◌<◌, ◌≤◌};

// A tray's cells lie in its row as in a ring: where in the row the first lies, and how many there are. A head does not
// know its ring, so each call is told how many places the ring has, and that they are at most 1,024.
#[derive(Clone, Copy, Debug, Default, PartialEq, Eq)]
pub struct Head {
    pub first: u16,
    pub count: u16,
}

impl Head {
    ghost use Rattle.rows.specs.Rings.{one_less, one_more};

    // One cell more at the end of a ring of `size` places that has room. Answers its place in the ring.
    pub(crate) fn push(&mut self, size: usize) -> usize
        requires has_room { self.old.count < size }
        requires few_places { size ≤ 1024 }
        ensures place { result ≡ (self.old.first + self.old.count) % size }
        ensures head { self.new ≡ one_more self.old }
    {
        let place = (usize::from(self.first) + usize::from(self.count)) % size;
        self.count += 1;
        place
    }

    // The first cell of a ring that has one leaves it. Answers the place in the ring where it lies.
    pub(crate) fn pop(&mut self, size: usize) -> usize
        requires has_cell { 0 < self.old.count }
        requires some_place { 0 < size }
        requires few_places { size ≤ 1024 }
        ensures place { result ≡ self.old.first % size }
        ensures head { self.new ≡ one_less size self.old }
    {
        let place = usize::from(self.first) % size;
        self.first = ((usize::from(self.first) + 1) % size) as u16;
        self.count -= 1;
        place
    }
}
