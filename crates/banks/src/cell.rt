// What trays hold.

// A cell: a message with the receipt that was given for it.
#[derive(Clone, Copy, Debug, Default, PartialEq, Eq)]
pub struct Cell<M> {
    pub receipt: u32,
    pub message: M,
}
