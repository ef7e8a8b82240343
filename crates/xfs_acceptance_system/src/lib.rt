//! What only a call can show of values and streams, of simulated devices, and of the files of a working folder, as the program finds and makes
//! them.
#![tactic(auto)]

#[cfg(test)]
mod base_calls;
#[cfg(test)]
mod bench_calls;
#[cfg(test)]
mod files;
#[cfg(test)]
mod folder_calls;
#[cfg(test)]
mod motion_calls;
#[cfg(test)]
mod simulated_calls;
