/// What the guard is asked to order.
#[derive(Clone, Copy, Debug, PartialEq, Eq)]
pub enum Ask {
    /// So many notes from a unit, which counts from 1, to the transport, for the issue of this number.
    Stack { issue: u64, unit: u8, count: u32 },
    /// The whole transport to the outlet.
    Present,
    /// The whole transport to rejected.
    Reject,
    /// The whole outlet to retracted.
    Retract,
}
