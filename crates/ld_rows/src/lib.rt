//! The worked examples, as tables: command lines, and the status, the texts and the files that each gives.
#![tactic(auto)]

#[cfg(test)]
mod tests;
