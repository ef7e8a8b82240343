//! What only a call can show of tokens, mechanisms, lines, words, queues, mixes, units, accounts and audits, as tests.
#![tactic(auto)]

#[cfg(test)]
mod answer_calls;
#[cfg(test)]
mod audit_calls;
#[cfg(test)]
mod hmac_calls;
#[cfg(test)]
mod host_calls;
#[cfg(test)]
mod line_calls;
#[cfg(test)]
mod mechanism_calls;
#[cfg(test)]
mod mix_calls;
#[cfg(test)]
mod mix_search;
#[cfg(test)]
mod queue_calls;
#[cfg(test)]
mod tables;
#[cfg(test)]
mod token_calls;
#[cfg(test)]
mod units_calls;
#[cfg(test)]
mod word_calls;
