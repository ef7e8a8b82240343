//! Clients that withdraw at once from the simulated machine, over real sockets, as a test.
#![tactic(auto)]

#[cfg(test)]
mod account;
#[cfg(test)]
mod bench;
#[cfg(test)]
mod clients;
#[cfg(test)]
mod crowd_calls;
#[cfg(test)]
mod steps;
#[cfg(test)]
mod withdrawals;
