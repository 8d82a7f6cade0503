//! Tests of what `ss_salvage` promises, as tables. It holds nothing else.
#![tactic(auto)]

#[cfg(test)]
mod asking;
#[cfg(test)]
mod damaged;
#[cfg(test)]
mod examples;
