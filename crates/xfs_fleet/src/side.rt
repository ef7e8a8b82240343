/// One of the two machines of a fleet.
#[derive(Clone, Copy)]
pub enum Side {
    A,
    B,
}
