//! What only a call can show of messages both ways: envelopes, asks, replies, conversations and devices, as tests.
#![tactic(auto)]

#[cfg(test)]
mod ask_calls;
#[cfg(test)]
mod client_calls;
#[cfg(test)]
mod conversation_calls;
#[cfg(test)]
mod converse_calls;
#[cfg(test)]
mod device_calls;
#[cfg(test)]
mod envelope_calls;
#[cfg(test)]
mod hearing_calls;
#[cfg(test)]
mod json_calls;
#[cfg(test)]
mod tables;
