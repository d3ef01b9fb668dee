//! Examples of the base, as far as no command shows them: a small grammar that the predictive parser reads, two small runners of
//! the fabric whose steps correspond, and tests of calls and of values worked by hand.
#![tactic(auto)]

pub mod bare;
#[cfg(test)]
mod bits;
#[cfg(test)]
mod captures;
pub mod counting;
#[cfg(test)]
mod desks;
#[cfg(test)]
mod fates;
#[cfg(test)]
mod graph_answers;
#[cfg(test)]
mod graphs;
#[cfg(test)]
mod halting;
#[cfg(test)]
mod hosts;
mod item_reader;
#[cfg(test)]
mod items;
pub mod law;
#[cfg(test)]
mod lines;
#[cfg(test)]
mod made;
#[cfg(test)]
mod random;
#[cfg(test)]
mod readers;
#[cfg(test)]
mod rows;
#[cfg(test)]
mod signatures;
pub mod steps;
#[cfg(test)]
mod stores;
#[cfg(test)]
mod tables;
#[cfg(test)]
mod threads;
