/// Which records stay in memory while a file is read: those from its last boot record on, or those behind so many.
#[derive(Copy, Clone)]
pub(crate) enum Keep {
    SinceBoot,
    Behind(u64),
}
