use serde_json::Value;
use xfs_envelope::Code;

/// What a step of a plan has come to.
#[derive(Debug, Drop)]
pub enum Progress {
    /// There is more to do.
    More,
    /// The command is over: its completion code and payload.
    Result(Code, Value),
}
