//! The tests that need threads: of the lock, over a running total, and of what threads do with a driver.
#![tactic(auto)]

#[cfg(test)]
mod drivers;
#[cfg(test)]
mod lines;
#[cfg(test)]
mod opening;
#[cfg(test)]
mod totals;
