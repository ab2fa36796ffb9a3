//! The worked examples of the pool, as tables: users, scenarios, cores, rehearsals, journals and summaries.
#![tactic(auto)]

#[cfg(test)]
mod tests;
