//! Tests of what the originator promises, as tables. It holds nothing else.
#![tactic(auto)]

#[cfg(test)]
mod examples;
#[cfg(test)]
mod printing;
#[cfg(test)]
mod scripts;
#[cfg(test)]
mod sealing;
#[cfg(test)]
mod settings;
#[cfg(test)]
mod starts;
#[cfg(test)]
mod texts;
#[cfg(test)]
mod wraps;
