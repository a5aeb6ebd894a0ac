// Traces on both devices, side by side, with and without an interlock.
#![tactic(auto)]

mod pairs;
#[cfg(test)]
mod tests;
