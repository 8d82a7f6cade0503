//! Tests of `ss_folder`: that the calls of the system do what they are for. It holds nothing else.
#![tactic(auto)]

#[cfg(test)]
mod examples;
