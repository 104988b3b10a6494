//! The calls for C, C++, SystemVerilog and Python: a static library whose functions all begin with `chi_`.
#![tactic(auto)]

mod answer;
mod call;
mod memory;
mod names;
mod numbers;
mod word;

pub use memory::chi_serve;
pub use names::{chi_op_name, chi_result_name, chi_version};
pub use word::{chi_apply, chi_decode};

#[cfg(test)]
mod comparison;
#[cfg(test)]
mod tests;
