// The rules of a command's dwords: which bits they may have (10), and what each row's values may be (12).
#![tactic(auto)]

pub mod bits;
pub mod values;
