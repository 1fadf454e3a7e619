// The plain engine: rows 10 to 12, what vertices come from.
#![tactic(auto)]

mod codes;
pub mod vertices;
