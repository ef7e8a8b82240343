//! The machine behind boards, servers and `run` over doors and links in memory, as tests: threads that come and end by themselves.
#![tactic(auto)]

#[cfg(test)]
mod bench;
#[cfg(test)]
mod callers;
#[cfg(test)]
mod cases;
#[cfg(test)]
mod clients;
#[cfg(test)]
mod clock;
#[cfg(test)]
mod doors;
#[cfg(test)]
mod links;
#[cfg(test)]
mod lock;
#[cfg(test)]
mod lock_cases;
#[cfg(test)]
mod machines;
#[cfg(test)]
mod program;
#[cfg(test)]
mod restart_calls;
#[cfg(test)]
mod run_cases;
#[cfg(test)]
mod scene;
#[cfg(test)]
mod server_cases;
#[cfg(test)]
mod servers;
#[cfg(test)]
mod words;
