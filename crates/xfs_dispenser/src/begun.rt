use crate::plan::Plan;
use serde_json::Value;
use xfs_envelope::Code;

/// What a command has begun with.
#[derive(Debug, Drop)]
pub enum Begun {
    /// It is over: its completion code and payload.
    Result(Code, Value),
    /// It is done a step at a time.
    Plan(Plan),
}
