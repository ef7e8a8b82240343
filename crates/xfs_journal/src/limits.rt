/// How many records a journal may have, and how many bytes up to and with the closing gate byte.
#[derive(Clone, Copy, Debug, PartialEq, Eq)]
pub struct Limits {
    pub records: u64,
    pub bytes: u64,
}
