//! What only a call can show of disks and journals, as tests; and the bytes of short journals.
#![tactic(auto)]

#[cfg(test)]
mod disk_calls;
#[cfg(test)]
mod files;
#[cfg(test)]
mod journal_calls;
#[cfg(test)]
mod kept_calls;
#[cfg(test)]
mod migrate_calls;
pub mod short_files;
