//! Worked rows: texts through the crates together, with answers that were worked out from the rules outside the program.
//! The rows stand in the tests; nothing is public.
#![tactic(auto)]

#[cfg(test)]
mod tests;
