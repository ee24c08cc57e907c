//! The term assurance.
ghost use Rattle.std.specs.Prelude.{◌≡◌, ◌↔◌, IfOk, IsErrOf};
ghost use Rattle.mx_plain.specs.declared.projection.PlainRefusal.TheVariants.{BadPolicy};
ghost use Rattle.mx_plain.specs.declared.term.TermPolicy.{TermPolicy};
ghost use Rattle.mx_plain.specs.Outcome.{Tells};
ghost use Rattle.mx_plain.specs.Term as spec;

use crate::base::{Basis, Month, months};
use crate::number::{Number, copied, decimal, in_cents, minus, over, plus, times, whole};
use crate::projection::{PlainRefusal, Projection, is_bad, settled};
use crate::worth::with_worth;
use mx_list::items::Items;
use mx_value::fixed::Fixed;
use std::alloc::Global;

/// A policy of the term assurance: amounts and rates as decimal numbers, and one rate of mortality and one of
/// interest for each year from 0 to the term.
#[derive(Drop)]
pub struct TermPolicy {
    /// In years, 1 to 80.
    pub policy_term: u32,
    pub policy_count: Fixed,
    pub sum_assured: Fixed,
    pub expense_acq: Fixed,
    pub expense_maint: Fixed,
    pub inflation_rate: Fixed,
    pub loading_prem: Fixed,
    pub mort: Items<Fixed>,
    pub disc: Items<Fixed>,
}

/// Present values that the premium rests on.
#[derive(Drop)]
pub struct Early {
    pub pols_if: Number,
    pub claims: Number,
}

/// The payments of a month beside its expenses.
#[derive(Drop)]
pub struct Flows {
    pub premiums: Number,
    pub claims: Number,
    pub commissions: Number,
    pub net_cf: Number,
}

/// Present values that rest on the premium, and that of the expenses.
#[derive(Drop)]
pub struct Sums {
    pub premiums: Number,
    pub expenses: Number,
    pub commissions: Number,
}

fn basis_of(policy: &TermPolicy) -> Basis
    ensures { result ≡ (spec.base_of policy.now).basis }
{
    Basis {
        policy_term: policy.policy_term,
        policy_count: policy.policy_count,
        expense_acq: policy.expense_acq,
        expense_maint: policy.expense_maint,
        inflation_rate: policy.inflation_rate,
    }
}

fn claims(policy: &TermPolicy, month: &Month) -> Number
    ensures { spec.AreClaims policy.now month.now result }
{
    times(&Ok(policy.sum_assured), &month.pols_death)
}

impl Early {
    /// The present values of all months.
    fn of(policy: &TermPolicy, months: &[Month]) -> Early
        ensures { spec.IsEarly policy.now months.now result }
    {
        let mut early = Early {
            pols_if: decimal(0),
            claims: decimal(0),
        };
        for t in 0..months.len() {
            let month = &months[t];
            early = Early {
                pols_if: with_worth(&early.pols_if, &month.opening.pols_if, month),
                claims: with_worth(&early.claims, &claims(policy, month), month),
            };
        }
        early
    }
}

/// The premium of a policy in a month.
fn premium_pp(policy: &TermPolicy, early: &Early) -> Number
    ensures { spec.IsPremium policy.now early.now result }
{
    let net = over(&early.claims, &early.pols_if);
    in_cents(&times(&plus(&whole(1), &Ok(policy.loading_prem)), &net))
}

/// The commissions of month `t` with these premiums.
fn commissions(premiums: &Number, t: usize) -> Number
    ensures { spec.AreCommissions t premiums.now result }
{
    if t / 12 == 0 {
        return copied(premiums);
    }
    return decimal(0);
}

impl Flows {
    /// The payments of month `t`.
    fn of(policy: &TermPolicy, premium: &Number, month: &Month, t: usize) -> Flows
        ensures { spec.AreFlows policy.now t premium.now month.now result }
    {
        let premiums = times(premium, &month.opening.pols_if);
        let claims = claims(policy, month);
        let commissions = commissions(&premiums, t);
        let left = minus(&minus(&premiums, &claims), &month.expenses);
        let net_cf = minus(&left, &commissions);
        Flows {
            premiums,
            claims,
            commissions,
            net_cf,
        }
    }
}

impl Sums {
    /// Before month 0.
    fn new() -> Sums
        ensures { (p : TermPolicy) → result ≡ spec.sums_before p 0 }
    {
        Sums {
            premiums: decimal(0),
            expenses: decimal(0),
            commissions: decimal(0),
        }
    }

    /// With what is paid in a month.
    fn with(&self, flows: &Flows, month: &Month) -> Sums
        ensures { spec.AreSums self.now flows.now month.now result }
    {
        Sums {
            premiums: with_worth(&self.premiums, &flows.premiums, month),
            expenses: with_worth(&self.expenses, &month.expenses, month),
            commissions: with_worth(&self.commissions, &flows.commissions, month),
        }
    }
}

/// The row of a month.
fn row(month: &Month, flows: &Flows) -> [Number; 6]
    ensures { spec.IsRow month.now flows.now result }
{
    [
        copied(&month.opening.pols_if),
        copied(&flows.premiums),
        copied(&flows.claims),
        copied(&month.expenses),
        copied(&flows.commissions),
        copied(&flows.net_cf),
    ]
}

/// The present values of all months.
fn present_values(early: &Early, sums: &Sums) -> [Number; 6]
    ensures { spec.AreValues early.now sums.now result }
{
    let left = minus(&minus(&sums.premiums, &early.claims), &sums.expenses);
    [
        copied(&early.pols_if),
        copied(&sums.premiums),
        copied(&early.claims),
        copied(&sums.expenses),
        copied(&sums.commissions),
        minus(&left, &sums.commissions),
    ]
}

/// The rows, and the present values that rest on the premium.
#[derive(Drop)]
struct Paid {
    rows: Items<Items<Fixed>>,
    sums: Sums,
}

impl Paid {
    /// The rows and sums of these months.
    fn of(
        alloc: Global,
        policy: &TermPolicy,
        premium: &Number,
        months: &[Month],
    ) -> Result<Paid, PlainRefusal>
        ensures rows { spec.Pays policy.now premium.now months.now result }
        ensures fault { spec.TellsRow policy.now premium.now months.now result }
        ensures policy { ¬ (IsErrOf result BadPolicy) }
    {
        let mut rows = Items::new(alloc);
        let mut sums = Sums::new();
        for t in 0..months.len() {
            let month = &months[t];
            let flows = Flows::of(policy, premium, month, t);
            sums = sums.with(&flows, month);
            rows.push(settled(alloc, &row(month, &flows))?)?;
        }
        Ok(Paid { rows, sums })
    }
}

/// The projection of a term assurance. BadPolicy comes exactly where the term is not from 1 to 80 years, or a list has
/// not one rate for each year from 0 to the term. Num comes where a step of the formulas that a row or a present value
/// needs has a fault.
///
/// A row has the policies in force, premiums, claims, expenses, commissions and the net cash flow of a month; the
/// present values are theirs at month 0.
pub fn term(alloc: Global, policy: &TermPolicy) -> Result<Projection, PlainRefusal>
    ensures rows { IfOk result (λ it. spec.HasRows policy.now it.rows) }
    ensures pv { IfOk result (λ it. spec.HasValues policy.now it.pv) }
    ensures bad_policy { IsErrOf result BadPolicy ↔ spec.IsBadPolicy policy.now }
    ensures fault { Tells result (spec.HasFault policy.now) }
{
    if is_bad(
        policy.policy_term,
        policy.mort.as_slice(),
        policy.disc.as_slice(),
    ) {
        return Err(PlainRefusal::BadPolicy);
    }
    let basis = basis_of(policy);
    let months = months(
        alloc,
        &basis,
        policy.mort.as_slice(),
        policy.disc.as_slice(),
    )?;
    let early = Early::of(policy, months.as_slice());
    let premium = premium_pp(policy, &early);
    let paid = Paid::of(alloc, policy, &premium, months.as_slice())?;
    let pv = settled(alloc, &present_values(&early, &paid.sums))?;
    Ok(Projection {
        rows: paid.rows,
        pv,
    })
}
