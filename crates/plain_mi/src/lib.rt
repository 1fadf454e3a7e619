// The plain engine: the commands of type 0.
#![tactic(auto)]

pub mod type_0;
