//! Tests of what `ss_spelled` and `ss_lines` promise, as rows. It holds nothing else.
#![tactic(auto)]

#[cfg(test)]
mod examples;
#[cfg(test)]
mod lines;
#[cfg(test)]
mod texts;
