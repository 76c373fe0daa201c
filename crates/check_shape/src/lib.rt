// Questions 1 to 3, on what stands before the instructions: the sizes, the pairs and the rows. Each function's contract
// is the question's own test, or the first method that fails it.
#![tactic(auto)]

pub mod pairs;
pub mod rows;
pub mod sizes;
