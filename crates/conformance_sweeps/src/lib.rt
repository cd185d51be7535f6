//! Sweeps over texts and data, each compared with the oracle.
#![tactic(auto)]

#[cfg(test)]
mod tests;
