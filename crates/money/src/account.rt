// The account of priced time.
ghost use Rattle.std.specs.Prelude.{◌≡◌, true};
ghost use Rattle.money.specs.Range.{in_range};

use crate::amounts::ScaledMoney;

mod postings;

// A balance in K-ths. It is exact: nothing is rounded here.
#[derive(Clone, Copy, Debug, PartialEq, Eq)]
pub struct TimeAccount {
    balance: ScaledMoney,
    ghost held: { in_range balance.count ≡ true },
}

impl TimeAccount {
    pub fn new(balance: ScaledMoney) -> TimeAccount
        ensures { result.balance ≡ balance }
    {
        TimeAccount { balance }
    }

    pub fn balance(&self) -> ScaledMoney
        ensures { result ≡ self.now.balance }
    {
        self.balance
    }
}
