//! The policies of rows.
use crate::reading::{Trouble, at, count_at, disc, fixed_at, mort};
use mx_list::items::Items;
use mx_plain::savings::SavingsPolicy;
use mx_plain::term::TermPolicy;
use mx_value::fixed::Fixed;
use std::alloc::Global;

/// The rates of mortality: their count stands at 1, the age at a place.
fn mort_at(alloc: Global, numbers: &[i64], place: usize) -> Result<Items<Fixed>, Trouble> {
    mort(alloc, at(numbers, place)?, count_at(numbers, 1)?)
}

/// The rates of interest: their count stands at 2, the first and the step at a place and the next.
fn disc_at(
    alloc: Global,
    numbers: &[i64],
    start: usize,
    step: usize,
) -> Result<Items<Fixed>, Trouble> {
    disc(
        alloc,
        at(numbers, start)?,
        at(numbers, step)?,
        count_at(numbers, 2)?,
    )
}

/// The term, how many rates of mortality and of interest there are, count, assured, acquisition, maintenance, inflation, loading, age,
/// interest and its step.
pub fn term_policy(alloc: Global, numbers: &[i64]) -> Result<TermPolicy, Trouble> {
    Ok(TermPolicy {
        policy_term: count_at(numbers, 0)?,
        policy_count: fixed_at(numbers, 3)?,
        sum_assured: fixed_at(numbers, 4)?,
        expense_acq: fixed_at(numbers, 5)?,
        expense_maint: fixed_at(numbers, 6)?,
        inflation_rate: fixed_at(numbers, 7)?,
        loading_prem: fixed_at(numbers, 8)?,
        mort: mort_at(alloc, numbers, 9)?,
        disc: disc_at(alloc, numbers, 10, 11)?,
    })
}

/// The term, how many rates of mortality and of interest there are, count, assured, acquisition, maintenance, inflation, premium, load,
/// fee, yield, age, interest and its step.
pub fn savings_policy(alloc: Global, numbers: &[i64]) -> Result<SavingsPolicy, Trouble> {
    Ok(SavingsPolicy {
        policy_term: count_at(numbers, 0)?,
        policy_count: fixed_at(numbers, 3)?,
        sum_assured: fixed_at(numbers, 4)?,
        expense_acq: fixed_at(numbers, 5)?,
        expense_maint: fixed_at(numbers, 6)?,
        inflation_rate: fixed_at(numbers, 7)?,
        single_premium: fixed_at(numbers, 8)?,
        load_prem_rate: fixed_at(numbers, 9)?,
        fee_rate: fixed_at(numbers, 10)?,
        inv_rate: fixed_at(numbers, 11)?,
        mort: mort_at(alloc, numbers, 12)?,
        disc: disc_at(alloc, numbers, 13, 14)?,
    })
}
