//! Tests of what `ss_signed` promises, as rows. It holds nothing else.
#![tactic(auto)]

#[cfg(test)]
mod examples;
