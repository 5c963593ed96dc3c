// Tables made of tables.
#![tactic(auto)]

pub mod pair;
pub mod renamed;
#[cfg(test)]
mod tests;
