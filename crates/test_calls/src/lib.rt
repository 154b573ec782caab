//! Tests of calls that rows can't make: writers that fail, engines that count, refused memory, whole
//! runs by the real engines.
#![tactic(auto)]

#[cfg(test)]
mod defaults;
#[cfg(test)]
mod engines;
#[cfg(test)]
mod evaluations;
#[cfg(test)]
mod inputs;
#[cfg(test)]
mod loads;
#[cfg(test)]
mod metadata;
#[cfg(test)]
mod places;
#[cfg(test)]
mod platforms;
#[cfg(test)]
mod queries;
#[cfg(test)]
mod refusals;
#[cfg(test)]
mod requests;
#[cfg(test)]
mod sinks;
#[cfg(test)]
mod specs;
#[cfg(test)]
mod texts;
#[cfg(test)]
mod usual;
#[cfg(test)]
mod writers;
