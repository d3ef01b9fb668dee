//! Examples of P4_14's front end that no command shows: the tokens of texts, how many declarations are read, the graph of parser states,
//! walks over trees, the numbers of names, parsers that are ready to run, and the order of what stands in a signature, of both languages.
//! Most are rows of a table, which one function goes through. What is taken or refused, and by which rule, `command_rows` shows.
#![tactic(auto)]

#[cfg(test)]
mod declared;
#[cfg(test)]
mod graphs;
#[cfg(test)]
mod lines;
#[cfg(test)]
mod nodes;
#[cfg(test)]
mod numbers;
#[cfg(test)]
mod parsers;
#[cfg(test)]
mod programs;
#[cfg(test)]
mod read;
#[cfg(test)]
mod rows;
#[cfg(test)]
mod signatures;
#[cfg(test)]
mod tables;
#[cfg(test)]
mod tests;
#[cfg(test)]
mod tokenized;
#[cfg(test)]
mod walks;
