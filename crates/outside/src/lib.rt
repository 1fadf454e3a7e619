// What the programs share of the world outside: the words that they are started with, files by their names, reading and writing, what is said of a
// failure, and the descriptors that the launcher opens for them. What a call could not do comes back as an error, and is the program's to tell.
#![tactic(auto)]

pub mod arguments;
pub mod descriptors;
pub mod files;
pub mod input;
pub mod output;
#[cfg(test)]
mod tests;
