//! Compaction, tried on written cases and on drawn rows, where the registry itself tells the closures.
#![tactic(auto)]

#[cfg(test)]
mod tests;
