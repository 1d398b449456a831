// Calls that no program makes: of rows that are longer than two bytes count, and of records of other cells than a bank's.
#![tactic(auto)]

#[cfg(test)]
mod tests;
