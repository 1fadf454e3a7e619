// The plain engine: what all its rows share, the header's checks, the search through groups, and what a row answers.
#![tactic(auto)]

pub mod groups;
pub mod heads;
pub mod wrong;
