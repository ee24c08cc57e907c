//! The single-premium savings product.
ghost use Rattle.std.specs.Prelude.{◌≡◌, ◌↔◌, IfOk, IsErrOf};
ghost use Rattle.mx_plain.specs.declared.projection.PlainRefusal.TheVariants.{BadPolicy};
ghost use Rattle.mx_plain.specs.declared.savings.SavingsPolicy.{SavingsPolicy};
ghost use Rattle.mx_plain.specs.Figures.{value};
ghost use Rattle.mx_plain.specs.Outcome.{Tells};
ghost use Rattle.mx_plain.specs.Savings as spec;

use crate::base::{Basis, Month, months};
use crate::number::{Number, copied, decimal, larger, minus, monthly, plus, times, whole};
use crate::projection::{PlainRefusal, Projection, is_bad, settled};
use crate::worth::with_worth;
use mx_list::items::Items;
use mx_value::fixed::Fixed;
use std::alloc::Global;

/// A policy of the savings product: amounts and rates as decimal numbers, and one rate of mortality and one of interest
/// for each year from 0 to the term.
#[derive(Drop)]
pub struct SavingsPolicy {
    /// In years, 1 to 80.
    pub policy_term: u32,
    pub policy_count: Fixed,
    pub sum_assured: Fixed,
    pub expense_acq: Fixed,
    pub expense_maint: Fixed,
    pub inflation_rate: Fixed,
    pub single_premium: Fixed,
    pub load_prem_rate: Fixed,
    pub fee_rate: Fixed,
    pub inv_rate: Fixed,
    pub mort: Items<Fixed>,
    pub disc: Items<Fixed>,
}

/// What is the same in each month: the part of a premium that goes to the account, and the interest on it.
#[derive(Drop)]
pub struct Growth {
    pub kept: Number,
    pub inv_mth: Number,
}

/// The account of a policy in a month: as it begins, with its premium, and as it ends.
#[derive(Drop)]
pub struct Account {
    pub premium_pp: Number,
    pub av_pp: Number,
    pub av_in_pp: Number,
    pub av_end_pp: Number,
}

/// The payments of a month beside its expenses.
#[derive(Drop)]
pub struct Flows {
    pub premiums: Number,
    pub claims: Number,
    pub surrenders: Number,
    pub maturities: Number,
    pub commissions: Number,
    pub net_cf: Number,
}

/// Present values.
#[derive(Drop)]
pub struct Sums {
    pub pols_if: Number,
    pub premiums: Number,
    pub claims: Number,
    pub surrenders: Number,
    pub maturities: Number,
    pub expenses: Number,
    pub commissions: Number,
}

fn basis_of(policy: &SavingsPolicy) -> Basis
    ensures { result ≡ (spec.base_of policy.now).basis }
{
    Basis {
        policy_term: policy.policy_term,
        policy_count: policy.policy_count,
        expense_acq: policy.expense_acq,
        expense_maint: policy.expense_maint,
        inflation_rate: policy.inflation_rate,
    }
}

impl Growth {
    /// The growth of a policy's account.
    fn of(policy: &SavingsPolicy) -> Growth
        ensures { result ≡ spec.growth_of policy.now }
    {
        let yearly = plus(&whole(1), &Ok(policy.inv_rate));
        Growth {
            kept: minus(&whole(1), &Ok(policy.load_prem_rate)),
            inv_mth: minus(&monthly(&yearly), &whole(1)),
        }
    }
}

/// The premium of a policy in month `t`: it is paid once.
fn premium_pp(policy: &SavingsPolicy, t: usize) -> Number
    ensures { result ≡ value (spec.premium_pp policy.now t) }
{
    if t == 0 {
        return Ok(policy.single_premium);
    }
    return decimal(0);
}

/// What is invested in a month, of an account value with its premium: without the fee and the cost of insurance.
fn invested(policy: &SavingsPolicy, month: &Month, av: &Number) -> Number
    ensures { spec.IsInvested policy.now month.now av.now result }
{
    let fee = times(av, &Ok(policy.fee_rate));
    let at_risk = larger(&minus(&Ok(policy.sum_assured), av), &decimal(0));
    let coi = times(&at_risk, &month.mort_rate_mth);
    minus(&minus(av, &fee), &coi)
}

impl Account {
    /// The account in month `t`, which it begins with `av_pp`.
    fn of(
        policy: &SavingsPolicy,
        growth: &Growth,
        month: &Month,
        av_pp: Number,
        t: usize,
    ) -> Account
        ensures { spec.IsAccount policy.now t growth.now month.now av_pp result }
    {
        let premium_pp = premium_pp(policy, t);
        let av_in_pp = plus(&av_pp, &times(&premium_pp, &growth.kept));
        let invested = invested(policy, month, &av_in_pp);
        let av_end_pp = plus(&invested, &times(&invested, &growth.inv_mth));
        Account {
            premium_pp,
            av_pp,
            av_in_pp,
            av_end_pp,
        }
    }
}

impl Flows {
    /// The payments of a month.
    fn of(policy: &SavingsPolicy, account: &Account, month: &Month) -> Flows
        ensures { spec.AreFlows policy.now account.now month.now result }
    {
        let premiums = times(&account.premium_pp, &month.opening.pols_if);
        let insured = larger(&Ok(policy.sum_assured), &account.av_in_pp);
        let claims = times(&insured, &month.pols_death);
        let surrenders = times(&account.av_end_pp, &month.pols_lapse);
        let maturities = times(&account.av_pp, &month.opening.pols_maturity);
        let commissions = times(&premiums, &decimal(50_000_000));
        let benefits = minus(&minus(&premiums, &claims), &surrenders);
        let left = minus(&minus(&benefits, &maturities), &month.expenses);
        Flows {
            net_cf: minus(&left, &commissions),
            premiums,
            claims,
            surrenders,
            maturities,
            commissions,
        }
    }
}

impl Sums {
    /// Before month 0.
    fn new() -> Sums
        ensures { (p : SavingsPolicy) → result ≡ spec.sums_before p 0 }
    {
        Sums {
            pols_if: decimal(0),
            premiums: decimal(0),
            claims: decimal(0),
            surrenders: decimal(0),
            maturities: decimal(0),
            expenses: decimal(0),
            commissions: decimal(0),
        }
    }

    /// With what is paid in a month.
    fn with(&self, flows: &Flows, month: &Month) -> Sums
        ensures { spec.AreSums self.now flows.now month.now result }
    {
        Sums {
            pols_if: with_worth(&self.pols_if, &month.opening.pols_if, month),
            premiums: with_worth(&self.premiums, &flows.premiums, month),
            claims: with_worth(&self.claims, &flows.claims, month),
            surrenders: with_worth(&self.surrenders, &flows.surrenders, month),
            maturities: with_worth(&self.maturities, &flows.maturities, month),
            expenses: with_worth(&self.expenses, &month.expenses, month),
            commissions: with_worth(&self.commissions, &flows.commissions, month),
        }
    }
}

/// The row of a month.
fn row(month: &Month, account: &Account, flows: &Flows) -> [Number; 9]
    ensures { spec.IsRow month.now account.now flows.now result }
{
    [
        copied(&month.opening.pols_if),
        copied(&account.av_pp),
        copied(&flows.premiums),
        copied(&flows.claims),
        copied(&flows.surrenders),
        copied(&flows.maturities),
        copied(&month.expenses),
        copied(&flows.commissions),
        copied(&flows.net_cf),
    ]
}

/// The present values of all months.
fn present_values(sums: &Sums) -> [Number; 9]
    ensures { spec.AreValues sums.now result }
{
    let benefits = minus(&minus(&sums.premiums, &sums.claims), &sums.surrenders);
    let left = minus(&minus(&benefits, &sums.maturities), &sums.expenses);
    [
        copied(&sums.pols_if),
        decimal(0),
        copied(&sums.premiums),
        copied(&sums.claims),
        copied(&sums.surrenders),
        copied(&sums.maturities),
        copied(&sums.expenses),
        copied(&sums.commissions),
        minus(&left, &sums.commissions),
    ]
}

/// The rows, and the present values of their columns.
#[derive(Drop)]
struct Paid {
    rows: Items<Items<Fixed>>,
    sums: Sums,
}

impl Paid {
    /// The rows and sums of these months.
    fn of(alloc: Global, policy: &SavingsPolicy, months: &[Month]) -> Result<Paid, PlainRefusal>
        ensures rows { spec.Pays policy.now months.now result }
        ensures fault { spec.TellsRow policy.now months.now result }
        ensures policy { ¬ (IsErrOf result BadPolicy) }
    {
        let growth = Growth::of(policy);
        let mut rows = Items::new(alloc);
        let mut sums = Sums::new();
        let mut av_pp = decimal(0);
        for t in 0..months.len() {
            let month = &months[t];
            let account = Account::of(policy, &growth, month, av_pp, t);
            let flows = Flows::of(policy, &account, month);
            sums = sums.with(&flows, month);
            rows.push(settled(alloc, &row(month, &account, &flows))?)?;
            av_pp = account.av_end_pp;
        }
        Ok(Paid { rows, sums })
    }
}

/// The projection of a savings policy. BadPolicy comes exactly where the term is not from 1 to 80 years, or a list has
/// not one rate for each year from 0 to the term. Num comes where a step of the formulas that a row or a present value
/// needs has a fault.
///
/// A row has the policies in force, the account value of a policy, premiums, claims, surrenders, maturities, expenses,
/// commissions and the net cash flow of a month; the present values are theirs at month 0, with 0.0 for the account value.
pub fn savings(alloc: Global, policy: &SavingsPolicy) -> Result<Projection, PlainRefusal>
    ensures rows { IfOk result (λ it. spec.HasRows policy.now it.rows) }
    ensures pv { IfOk result (λ it. spec.HasValues policy.now it.pv) }
    ensures bad_policy { IsErrOf result BadPolicy ↔ spec.IsBadPolicy policy.now }
    ensures fault { Tells result (spec.HasFault policy.now) }
{
    if is_bad(
        policy.policy_term,
        policy.mort.as_slice(),
        policy.disc.as_slice(),
    ) {
        return Err(PlainRefusal::BadPolicy);
    }
    let basis = basis_of(policy);
    let months = months(
        alloc,
        &basis,
        policy.mort.as_slice(),
        policy.disc.as_slice(),
    )?;
    let paid = Paid::of(alloc, policy, months.as_slice())?;
    let pv = settled(alloc, &present_values(&paid.sums))?;
    Ok(Projection {
        rows: paid.rows,
        pv,
    })
}
