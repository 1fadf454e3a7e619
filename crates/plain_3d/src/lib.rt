// The plain engine: the commands of type 3, but for rows 10 to 12, which `plain_vertex` has.
#![tactic(auto)]

pub mod type_3;
