//! The turn lock, sessions, workers, servers and withdrawals over links and boards in memory, without a machine, as tests.
#![tactic(auto)]

#[cfg(test)]
mod bell_calls;
#[cfg(test)]
mod lists;
#[cfg(test)]
mod servers;
#[cfg(test)]
mod sessions;
#[cfg(test)]
mod turn_calls;
#[cfg(test)]
mod withdraw_calls;
