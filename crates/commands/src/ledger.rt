// The ledger of an account of priced time that is charged out and handed back, period by period.
ghost use Rattle.std.specs.Prelude.{◌≡◌, ◌++◌, IfErr, Some, OnErr, OnOk};
ghost use Rattle.commands.specs.declared.ledger.Refusal.TheVariants.{Memory, OutOfRange as TooLarge};
ghost use Rattle.money.specs.Postings.{worth, balanced};
ghost use Rattle.commands.specs.Texts.{posting_text, entry_text};
ghost use Rattle.commands.specs.Ledger.{worths, posted, posted_entry, Beyond, entries, balance_after, Answers};

use money::{OutOfRange, PricedTime, ScaledMoney, TimeAccount};
use std::alloc::{AllocFailed, Global};
use std::fmt;

// Which way priced time is posted.
#[derive(Clone, Copy, Debug, PartialEq, Eq)]
pub enum Posting {
    Charge,
    HandBack,
}

// One posting: what it came to, and the balance after it.
#[derive(Clone, Copy, Debug, PartialEq, Eq)]
pub struct Entry {
    pub period: usize,
    pub posting: Posting,
    pub amount: ScaledMoney,
    pub balance: ScaledMoney,
}

impl fmt::Display for Posting {
    ghost output = { λ p. Some (posting_text p) };

    fn fmt<W: fmt::Write>(&self, f: &mut fmt::Formatter<W>) -> fmt::Result {
        f.write_str(match self {
            Posting::Charge => "charged",
            Posting::HandBack => "handed back",
        })
    }
}

impl fmt::Display for Entry {
    ghost output = { λ e. Some (entry_text e) };

    fn fmt<W: fmt::Write>(&self, f: &mut fmt::Formatter<W>) -> fmt::Result {
        let Entry {
            period,
            posting,
            amount,
            balance,
        } = *self;
        write!(f, "period {period}: {posting} {amount}, balance {balance}")
    }
}

// Why a ledger was not made.
#[derive(Clone, Copy, Debug, PartialEq, Eq)]
pub enum Refusal {
    Memory,
    OutOfRange,
}

impl From<OutOfRange> for Refusal {
    ghost from_gives = { λ _ r. r ≡ TooLarge };

    fn from(_e: OutOfRange) -> Refusal {
        Refusal::OutOfRange
    }
}

impl<T: Drop> From<AllocFailed<T>> for Refusal {
    ghost from_gives = { λ _ r. r ≡ Memory };

    fn from(_e: AllocFailed<T>) -> Refusal {
        Refusal::Memory
    }
}

// Posts one period's time, and answers its entry.
fn post(
    account: &mut TimeAccount,
    posting: Posting,
    period: usize,
    time: PricedTime,
) -> Result<Entry, OutOfRange>
    ensures answer { result ≡ posted_entry posting period account.old.balance.count (worth time) }
    ensures balance { account.new.balance ≡ balanced account.old.balance (posted posting account.old.balance.count (worth time)) }
    ensures cause { OnErr result (Beyond posting (posted posting account.old.balance.count (worth time))) }
{
    // A `match` and no closure, since the entry has the posting as a value too.
    let amount = match posting {
        Posting::Charge => account.charge(time)?,
        Posting::HandBack => account.hand_back(time)?,
    };
    Ok(Entry {
        period,
        posting,
        amount,
        balance: account.balance(),
    })
}

fn post_all(
    account: &mut TimeAccount,
    posting: Posting,
    times: &[PricedTime],
    ledger: &mut Vec<Entry>,
) -> Result<(), Refusal>
    ensures ledger { OnOk result (ledger.new.items ≡ ledger.old.items ++ entries posting 0 account.old.balance.count (worths times.now)) }
    ensures balance { OnOk result (account.new.balance.count ≡ balance_after posting account.old.balance.count (worths times.now)) }
    ensures cause { IfErr result (λ e. e ≡ TooLarge → Beyond posting (balance_after posting account.old.balance.count (worths times.now))) }
{
    for (period, time) in times.iter().enumerate() {
        let entry = post(account, posting, period, *time)?;
        ledger.push(entry)?;
    }
    Ok(())
}

// Charges every period's minutes out, then hands the same minutes back: the balance is then where it was.
pub fn out_and_back(
    heap: Global,
    account: &mut TimeAccount,
    times: &[PricedTime],
) -> Result<Vec<Entry>, Refusal>
    ensures answer { Answers result account.old.balance.count (worths times.now) }
    ensures same { account.new.balance ≡ account.old.balance }
{
    let mut working = *account;
    let mut ledger = Vec::new(heap);
    post_all(&mut working, Posting::Charge, times, &mut ledger)?;
    post_all(&mut working, Posting::HandBack, times, &mut ledger)?;
    *account = working;
    Ok(ledger)
}
