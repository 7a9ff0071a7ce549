// Trials of the units: tapes at their limits, a punch filled, the rows of the needle bank.
#![tactic(auto)]

#[cfg(test)]
mod tests;
