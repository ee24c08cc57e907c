//! Tests of lists, labels, values, formulas and orders: each public call that takes memory, and what was worked outside.
//!
//! Room: checks.
#![tactic(auto)]

#[cfg(test)]
mod copies;
#[cfg(test)]
mod formulas;
#[cfg(test)]
mod lists;
#[cfg(test)]
mod orders;
#[cfg(test)]
mod values;
