//! What no command shows of the runners' parts: captures in memory over a small runner, states of P4_14 by the numbers of their parts, the
//! ways in which parsing ends, field lists and requests by number, applications of tables, a list of packets in one call, and frames and
//! seats of P4_16.
#![tactic(auto)]

#[cfg(test)]
mod actions;
#[cfg(test)]
mod captures;
#[cfg(test)]
mod controls;
#[cfg(test)]
mod copies;
#[cfg(test)]
mod frames;
#[cfg(test)]
mod lists;
#[cfg(test)]
mod packets;
#[cfg(test)]
mod programs;
#[cfg(test)]
mod rows;
#[cfg(test)]
mod seats;
#[cfg(test)]
mod stacks;
#[cfg(test)]
mod states;
pub mod twice;
