//! A test of `ss_journal`: that its calls succeed. It holds nothing else.
#![tactic(auto)]

#[cfg(test)]
mod examples;
