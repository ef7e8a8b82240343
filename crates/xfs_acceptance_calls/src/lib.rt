//! What only a call can show of guard, evidence, dispenser and two machines, as tests.
#![tactic(auto)]

#[cfg(test)]
mod cash_calls;
#[cfg(test)]
mod crash_calls;
#[cfg(test)]
mod evidence_calls;
#[cfg(test)]
mod files;
#[cfg(test)]
mod fleet_calls;
#[cfg(test)]
mod guard_bench;
#[cfg(test)]
mod guard_boot_calls;
#[cfg(test)]
mod guard_calls;
#[cfg(test)]
mod reach_calls;
#[cfg(test)]
mod teller;
