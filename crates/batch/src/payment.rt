// The payment that is open: its sums so far (01 Sums), and what is wrong with them when it ends.
ghost use Rattle.std.specs.Prelude.{◌≡◌};
ghost use Rattle.money.specs.Money.{worth};
ghost use Rattle.reasons.specs.Findings.{after};
ghost use Rattle.batch.specs.Walk.{Small, Own, opened, with_account, with_procurement, lone_blank, account_reason, procurement_reason, lack_reason, ended};

use money::{Amount, Signed};
use reasons::{Finding, Reason};
use rules::Context;

// What is known of a payment: its detail's record, what its rules know of the batch, its amount, its DT and their signed sum, its DP,
// whether the first of them is blank, and their sum.
#[derive(Clone, Copy)]
pub(crate) struct Open {
    pub(crate) number: usize,
    pub(crate) context: Context,
    pub(crate) amount: Amount,
    pub(crate) accounts: usize,
    pub(crate) sum: Signed,
    pub(crate) procurements: usize,
    pub(crate) blank: bool,
    pub(crate) procured: Amount,
}

// A payment with no record yet but its detail.
pub(crate) fn begin(number: usize, context: Context, amount: Amount) -> Open
    ensures { result ≡ opened number context amount }
{
    let none = Amount { high: 0, low: 0 };
    let sum = Signed {
        positive: none,
        negative: none,
    };
    Open {
        number,
        context,
        amount,
        accounts: 0,
        sum,
        procurements: 0,
        blank: false,
        procured: none,
    }
}

// The payment with one DT more, a credit or not.
pub(crate) fn with_account(payment: Open, credit: bool, amount: Amount) -> Open
    requires { Own 65535 payment × Small 1 amount }
    ensures { result ≡ with_account payment credit (worth amount) }
{
    let sum = money::enter(payment.sum, credit, amount);
    let accounts = payment.accounts + 1;
    Open {
        accounts,
        sum,
        ..payment
    }
}

// The payment with one DP more; whether the first is blank is kept.
pub(crate) fn with_procurement(payment: Open, blank: bool, amount: Amount) -> Open
    requires { Own 65535 payment × Small 1 amount }
    ensures { result ≡ with_procurement payment blank (worth amount) }
{
    let before = payment.procured;
    let mut after = payment;
    after.procurements = payment.procurements + 1;
    after.procured = money::plus(before, amount);
    if payment.procurements == 0 {
        after.blank = blank;
        return after;
    }
    after
}

// The payment has one DP, and it is blank.
pub(crate) fn is_lone_blank(payment: Open) -> bool
    ensures { result ≡ lone_blank payment }
{
    if payment.procurements == 1 {
        return payment.blank;
    }
    false
}

// The DT of the payment do not come to its amount. A lone DT is positive, whatever its BETC.
fn account_reason(payment: Open) -> Result<(), Reason>
    requires { Own 65535 payment }
    ensures { result ≡ account_reason payment }
{
    let amount = payment.amount;
    let sum = payment.sum;
    if payment.accounts == 0 {
        return Ok(());
    }
    if payment.accounts == 1 {
        let positive = sum.positive;
        let negative = sum.negative;
        let lone = money::plus(positive, negative);
        if money::is_equal(lone, amount) {
            return Ok(());
        }
        return Err(Reason::Accounts);
    }
    if money::comes_to(sum, amount) {
        return Ok(());
    }
    Err(Reason::Accounts)
}

// The DP of the payment do not come to its amount.
fn procurement_reason(payment: Open) -> Result<(), Reason>
    requires { Own 65535 payment }
    ensures { result ≡ procurement_reason payment }
{
    let amount = payment.amount;
    let procured = payment.procured;
    if payment.procurements == 0 {
        return Ok(());
    }
    if is_lone_blank(payment) {
        return Ok(());
    }
    if money::is_equal(procured, amount) {
        return Ok(());
    }
    Err(Reason::Procurements)
}

// A CARS Reporter's payment has no DT.
fn lack_reason(payment: Open) -> Result<(), Reason>
    ensures { result ≡ lack_reason payment }
{
    let context = payment.context;
    if context.reporter {
        if payment.accounts == 0 {
            return Err(Reason::Lacking);
        }
    }
    Ok(())
}

// What is known, and what is wrong with the sums of the payment that ends.
#[tactic(auto, using(crate::proofs::Laws::ending), unfolding(reasons::specs::Findings::noted))]
pub(crate) fn end(known: Result<(), Finding>, payment: Open) -> Result<(), Finding>
    requires { Own 65535 payment }
    ensures { result ≡ after known (ended payment) }
{
    known?;
    let number = payment.number;
    reasons::find(account_reason(payment), number, 87)?;
    reasons::find(procurement_reason(payment), number, 96)?;
    reasons::find(lack_reason(payment), number, 76)
}
