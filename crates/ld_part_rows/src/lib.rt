//! The worked examples of the parts, as tables: numbers, cuts, arrivals, documents, options, plans, words, and the
//! outside.
#![tactic(auto)]

#[cfg(test)]
mod tests;
