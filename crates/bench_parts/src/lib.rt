// What the test program bench_test prints with, and the tables and states that its cases are about. It promises nothing, and no product
// code uses it.
#![tactic(auto)]

pub mod printing;
pub mod values;
