//! Tests of what the libraries promise, as tables. It holds nothing else.
#![tactic(auto)]

#[cfg(test)]
mod blocks;
#[cfg(test)]
mod examples;
#[cfg(test)]
mod frames;
#[cfg(test)]
mod full_readings;
#[cfg(test)]
mod memory;
#[cfg(test)]
mod messages;
#[cfg(test)]
mod printing;
