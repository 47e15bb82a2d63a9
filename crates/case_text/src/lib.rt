// What the test programs share: reading their list, the numbers of a line of text, captures, structs as numbers, and what a call answers.
#![tactic(auto)]

pub mod answers;
pub mod captures;
pub mod input;
pub mod numbers;
pub mod structs;
