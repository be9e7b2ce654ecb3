// What priced time is worth.
ghost use Rattle.std.specs.Prelude.{◌≡◌, pos};
ghost use Rattle.money.specs.Postings.{worth};
ghost use Rattle.money.specs.Range.{in_kths};

use crate::amounts::ScaledMoney;
use crate::priced::PricedTime;

impl PricedTime {
    // Price times minutes.
    pub fn worth(self) -> ScaledMoney
        ensures { result ≡ in_kths (pos (worth self)) }
    {
        let kths = u64::from(self.price.number) * u64::from(self.minutes.number);
        // No `From` leads from u64 to i64; what priced time is worth always fits.
        ScaledMoney::new(kths as i64)
    }
}
