//! Links, doors and listeners over real sockets, without a machine.
#![tactic(auto)]

#[cfg(test)]
mod listener_calls;
#[cfg(test)]
mod peers;
#[cfg(test)]
mod silence_calls;
#[cfg(test)]
mod socket_calls;
#[cfg(test)]
mod visitor_calls;
