//! A test of `ss_live`: a whole life of a signer, and the next, and how runs begin. It holds nothing else.
#![tactic(auto)]

#[cfg(test)]
mod beginnings;
#[cfg(test)]
mod examples;
#[cfg(test)]
mod lives;
