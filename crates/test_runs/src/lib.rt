//! Tests of what the runs over a log, and the reviewer under them, promise, as tables. It holds nothing else.
#![tactic(auto)]

#[cfg(test)]
mod asking;
#[cfg(test)]
mod book;
#[cfg(test)]
mod deliveries;
#[cfg(test)]
mod details;
#[cfg(test)]
mod ends;
#[cfg(test)]
mod examples;
#[cfg(test)]
mod facts;
#[cfg(test)]
mod inspections;
#[cfg(test)]
mod keeping;
#[cfg(test)]
mod memory;
#[cfg(test)]
mod originating;
#[cfg(test)]
mod rows;
#[cfg(test)]
mod run;
#[cfg(test)]
mod salvaged;
#[cfg(test)]
mod shortfalls;
#[cfg(test)]
mod stops;
#[cfg(test)]
mod strangers;
#[cfg(test)]
mod texts;
#[cfg(test)]
mod wraps;
