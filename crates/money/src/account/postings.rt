// Minutes charged to the account at a price, and handed back from it at a price.
ghost use Rattle.std.specs.Prelude.{◌≡◌};
ghost use Rattle.money.specs.Postings.{worth, charged, handed_back, answered, balanced};

use crate::account::TimeAccount;
use crate::amounts::{OutOfRange, ScaledMoney};
use crate::priced::PricedTime;

impl TimeAccount {
    // Charges the minutes at their price, and answers what they came to.
    pub fn charge(&mut self, time: PricedTime) -> Result<ScaledMoney, OutOfRange>
        ensures answer { result ≡ answered (charged self.old.balance.count (worth time)) (worth time) }
        ensures balance { self.new.balance ≡ balanced self.old.balance (charged self.old.balance.count (worth time)) }
    {
        let amount = time.worth();
        self.balance = self.balance.checked_add(amount)?;
        Ok(amount)
    }

    // Hands the minutes back at their price, and answers what they came to. (As `charge` but for the operation: one call that
    // takes the operation would be no plainer.)
    pub fn hand_back(&mut self, time: PricedTime) -> Result<ScaledMoney, OutOfRange>
        ensures answer { result ≡ answered (handed_back self.old.balance.count (worth time)) (worth time) }
        ensures balance { self.new.balance ≡ balanced self.old.balance (handed_back self.old.balance.count (worth time)) }
    {
        let rebate = time.worth();
        self.balance = self.balance.checked_sub(rebate)?;
        Ok(rebate)
    }
}
