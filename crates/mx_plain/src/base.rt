//! What both products share: policies in force, deaths, lapses, maturities, expenses and factors, by month.
ghost use Rattle.std.specs.Prelude.{◌≡◌, ◌+◌, ◌*◌, ◌/◌, ◌<◌, ◌≤◌, length, IfOk, IsErrOf};
ghost use Rattle.mx_plain.specs.declared.projection.PlainRefusal.{PlainRefusal};
ghost use Rattle.mx_plain.specs.declared.projection.PlainRefusal.TheVariants.{NoMemory};
ghost use Rattle.mx_plain.specs.Base as spec;
ghost use Rattle.mx_plain.specs.Figures.{value};

use crate::number::{Number, copied, decimal, larger, minus, monthly, over, plus, times, whole};
use crate::projection::PlainRefusal;
use mx_value::fixed::Fixed;
use std::alloc::Global;

/// The numbers of a policy that both products have.
#[derive(Clone, Copy)]
pub struct Basis {
    pub policy_term: u32,
    pub policy_count: Fixed,
    pub expense_acq: Fixed,
    pub expense_maint: Fixed,
    pub inflation_rate: Fixed,
}

/// The rates per month in a year of the term.
#[derive(Drop)]
pub struct Year {
    pub mort_rate_mth: Number,
    pub lapse_rate_mth: Number,
    pub disc_mth: Number,
}

impl Year {
    /// The rates per month of a year, counted from 0.
    fn of(mort_rate: Fixed, disc_rate: Fixed, y: u32) -> Year
        ensures { result ≡ spec.year_of mort_rate disc_rate y }
    {
        Year {
            mort_rate_mth: over(&Ok(mort_rate), &whole(12)),
            lapse_rate_mth: over(&lapse_rate(y), &whole(12)),
            disc_mth: monthly(&plus(&whole(1), &Ok(disc_rate))),
        }
    }
}

/// What a month begins with.
#[derive(Drop)]
pub struct Opening {
    pub pols_if: Number,
    pub pols_maturity: Number,
    pub inflation_factor: Number,
    pub disc_factor: Number,
}

/// The policies of a month, its expenses and its factors.
#[derive(Drop)]
pub struct Month {
    pub opening: Opening,
    pub mort_rate_mth: Number,
    pub pols_death: Number,
    pub pols_lapse: Number,
    pub expenses: Number,
}

/// 10% in the first year, 2% less each year, and 2% at the least.
fn lapse_rate(y: u32) -> Number
    ensures { result ≡ value (spec.lapse_rate y) }
{
    let step = decimal(20_000_000);
    let lower = minus(&decimal(100_000_000), &times(&step, &whole(y)));
    larger(&lower, &step)
}

/// The rates per month of the first `count` years.
fn years(
    alloc: Global,
    mort: &[Fixed],
    disc: &[Fixed],
    count: u32,
) -> Result<Vec<Year>, PlainRefusal>
    requires mort { count ≤ length mort.now }
    requires disc { count ≤ length disc.now }
    ensures years { IfOk result (λ it. spec.AreYears mort.now disc.now count it.items) }
    ensures no_memory { (e : PlainRefusal) → IsErrOf result e → e ≡ NoMemory }
{
    let mut years = Vec::new(alloc);
    for y in 0..count {
        let at = y as usize;
        years.push(Year::of(mort[at], disc[at], y))?;
    }
    Ok(years)
}

/// What month 0 begins with.
fn first_opening(basis: &Basis) -> Opening
    ensures { spec.OpensAt basis.now 0 result }
{
    Opening {
        pols_if: Ok(basis.policy_count),
        pols_maturity: decimal(0),
        inflation_factor: decimal(1_000_000_000),
        disc_factor: decimal(1_000_000_000),
    }
}

/// The expenses of month `t`: those of acquisition are paid in month 0.
fn expenses(opening: &Opening, basis: &Basis, t: u32) -> Number
    ensures { spec.AreExpenses basis.now t opening.now result }
{
    let yearly = times(&opening.pols_if, &Ok(basis.expense_maint));
    let maint = times(&over(&yearly, &whole(12)), &opening.inflation_factor);
    if t == 0 {
        let acquisition = times(&Ok(basis.expense_acq), &Ok(basis.policy_count));
        return plus(&acquisition, &maint);
    }
    return maint;
}

impl Month {
    /// Month `t`, in a year of these rates.
    fn of(opening: Opening, basis: &Basis, year: &Year, t: u32) -> Month
        ensures { spec.IsMonth basis.now t opening year.now result }
    {
        let pols_death = times(&opening.pols_if, &year.mort_rate_mth);
        let pols_lapse = times(&minus(&opening.pols_if, &pols_death), &year.lapse_rate_mth);
        let expenses = expenses(&opening, basis, t);
        Month {
            opening,
            mort_rate_mth: copied(&year.mort_rate_mth),
            pols_death,
            pols_lapse,
            expenses,
        }
    }
    /// What the month behind this one, which is month `t`, begins with.
    fn following(&self, basis: &Basis, year: &Year, inflation_mth: &Number, t: u32) -> Opening
        requires term { basis.now.policy_term ≤ 80 }
        requires month { t ≤ 960 }
        ensures { spec.IsFollowing basis.now t self.now year.now inflation_mth.now result }
    {
        let in_force = minus(&self.opening.pols_if, &self.pols_lapse);
        let left = minus(&in_force, &self.pols_death);
        let pols_maturity = maturing(basis, t + 1, &left);
        Opening {
            pols_if: minus(&left, &pols_maturity),
            pols_maturity,
            inflation_factor: times(&self.opening.inflation_factor, inflation_mth),
            disc_factor: over(&self.opening.disc_factor, &year.disc_mth),
        }
    }
}

/// The policies that mature in month `t`, of those that are left before it.
fn maturing(basis: &Basis, t: u32, left: &Number) -> Number
    requires { basis.now.policy_term ≤ 80 }
    ensures { spec.AreMaturing basis.now t left.now result }
{
    if t == 12 * basis.policy_term {
        return copied(left);
    }
    return decimal(0);
}

/// The inflation factor of a month.
fn inflation_mth(basis: &Basis) -> Number
    ensures { spec.IsInflation basis.now result }
{
    monthly(&plus(&whole(1), &Ok(basis.inflation_rate)))
}

/// The months of the term and the one behind it, in which what is left matures.
pub fn months(
    alloc: Global,
    basis: &Basis,
    mort: &[Fixed],
    disc: &[Fixed],
) -> Result<Vec<Month>, PlainRefusal>
    requires term { basis.now.policy_term ≤ 80 }
    requires mort { length mort.now ≡ basis.now.policy_term + 1 }
    requires disc { length disc.now ≡ basis.now.policy_term + 1 }
    ensures months { IfOk result (λ it. spec.AreMonths basis.now mort.now disc.now it.items) }
    ensures no_memory { (e : PlainRefusal) → IsErrOf result e → e ≡ NoMemory }
{
    let years = years(alloc, mort, disc, basis.policy_term + 1)?;
    let inflation_mth = inflation_mth(basis);
    let mut months = Vec::new(alloc);
    let mut opening = first_opening(basis);
    for t in 0..12 * basis.policy_term + 1 {
        let year = &years[(t / 12) as usize];
        let month = Month::of(opening, basis, year, t);
        opening = month.following(basis, year, &inflation_mth, t);
        months.push(month)?;
    }
    Ok(months)
}
