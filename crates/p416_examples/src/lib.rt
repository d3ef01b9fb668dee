//! Examples of what no command shows of P4_16: tokens with their places, how expressions, statements and declarations are read and
//! written again, tokens on a sheet, how large types are, and of what kind expressions are. They are rows of tables, which one
//! function goes through. Which texts `run16` takes, and which rule it names of others, are rows of commands.
#![tactic(auto)]

#[cfg(test)]
mod deep;
#[cfg(test)]
mod expressions;
#[cfg(test)]
mod frames;
#[cfg(test)]
mod kind_words;
#[cfg(test)]
mod kinds;
#[cfg(test)]
mod lexemes;
#[cfg(test)]
mod lines;
#[cfg(test)]
mod programs;
#[cfg(test)]
mod rows;
#[cfg(test)]
mod sheets;
#[cfg(test)]
mod sizes;
#[cfg(test)]
mod tokens;
#[cfg(test)]
mod wholes;
#[cfg(test)]
mod writing;
#[cfg(test)]
mod written;
