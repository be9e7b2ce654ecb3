// Numbers that are held within limits: a scale, a capacity price and a period's minutes.
ghost use Rattle.std.specs.Prelude.{◌≡◌, ◌≤◌};
ghost use Rattle.std.specs.Option.{option_map};
ghost use Rattle.money.specs.Limits.{within, scale_of, price_of, minutes_of};

// A number from LEAST to MOST.
#[derive(Clone, Copy, Debug, PartialEq, Eq)]
pub struct Within<const LEAST: u32, const MOST: u32> {
    pub(crate) number: u32,
    ghost least: { LEAST ≤ number },
    ghost most: { number ≤ MOST },
}

// The scale K between whole money and its K-ths: a whole is K K-ths.
pub type Scale = Within<1, 1000>;

// The price of one minute of a period's capacity, in K-ths.
pub type CapacityPrice = Within<0, 100_000>;

// Minutes of one period.
pub type Minutes = Within<0, 1_000_000_000>;

impl<const LEAST: u32, const MOST: u32> Within<LEAST, MOST> {
    // This number, refused outside LEAST to MOST.
    pub fn checked(number: u32) -> Option<Self>
        ensures { option_map (λ w. w.number) result ≡ within LEAST MOST number }
    {
        if (LEAST..=MOST).contains(&number) {
            Some(Within { number })
        } else {
            None
        }
    }
}

// Each of the three has a constructor of its own, whose contract names its limits.
impl Scale {
    // The scale K, refused outside 1 to 1,000.
    pub fn new(k: u32) -> Option<Scale>
        ensures { option_map (λ s. s.number) result ≡ scale_of k }
    {
        Within::checked(k)
    }

    pub fn k(self) -> u32
        ensures { result ≡ self.number }
    {
        self.number
    }
}

impl CapacityPrice {
    // The price of so many K-ths, refused above 100,000.
    pub fn new(kths: u32) -> Option<CapacityPrice>
        ensures { option_map (λ p. p.number) result ≡ price_of kths }
    {
        Within::checked(kths)
    }
}

impl Minutes {
    // So many minutes, refused above 1,000,000,000.
    pub fn new(count: u32) -> Option<Minutes>
        ensures { option_map (λ m. m.number) result ≡ minutes_of count }
    {
        Within::checked(count)
    }

    // One minute.
    pub fn one() -> Minutes
        ensures { result.number ≡ 1 }
    {
        Minutes { number: 1 }
    }
}
