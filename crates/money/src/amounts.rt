// Amounts of money in whole units and in K-ths. One comes from the other by scaling up, or by the one division, and in no other way.
ghost use Rattle.std.specs.Prelude.{◌≡◌, pos, ◌+ℤ◌, ◌-ℤ◌, ◌*ℤ◌, Some};
ghost use Rattle.std.specs.Fmt.{signed_decimal};
ghost use Rattle.money.specs.Range.{exactly, amount, whole, in_kths, is_zero};
ghost use Rattle.money.specs.Rounding.{divided_up, RoundedUp};

use crate::limits::Scale;
use std::fmt;
use std::marker::PhantomData;

// The unit of whole money.
#[derive(Clone, Copy, Debug, PartialEq, Eq)]
pub struct Whole;

// The unit of money in K-ths of the whole, at a scale K that its holder knows.
#[derive(Clone, Copy, Debug, PartialEq, Eq)]
pub struct Kths;

// So many of a unit. A bound may be below zero.
#[derive(Clone, Copy, Debug, PartialEq, Eq)]
pub struct Amount<U> {
    count: i64,
    unit: PhantomData<U>,
}

pub type Money = Amount<Whole>;

pub type ScaledMoney = Amount<Kths>;

// The exact result is outside the numbers that 64 bits with a sign hold.
#[derive(Clone, Copy, Debug, PartialEq, Eq)]
pub struct OutOfRange;

impl<U> Amount<U> {
    pub fn new(count: i64) -> Self
        ensures { result ≡ amount count }
    {
        Amount {
            count,
            unit: PhantomData,
        }
    }

    pub fn checked_add(self, other: Self) -> Result<Self, OutOfRange>
        ensures { result ≡ exactly amount (self.count +ℤ other.count) }
    {
        let count = self.count.checked_add(other.count).ok_or(OutOfRange)?;
        Ok(Amount::new(count))
    }

    pub fn checked_sub(self, other: Self) -> Result<Self, OutOfRange>
        ensures { result ≡ exactly amount (self.count -ℤ other.count) }
    {
        let count = self.count.checked_sub(other.count).ok_or(OutOfRange)?;
        Ok(Amount::new(count))
    }
}

impl Money {
    // The same money in K-ths.
    pub fn scaled(self, scale: Scale) -> Result<ScaledMoney, OutOfRange>
        ensures { result ≡ exactly in_kths (self.count *ℤ pos scale.number) }
    {
        let kths = self
            .count
            .checked_mul(i64::from(scale.k()))
            .ok_or(OutOfRange)?;
        Ok(ScaledMoney::new(kths))
    }
}

impl ScaledMoney {
    pub fn is_zero(self) -> bool
        ensures { result ≡ is_zero self.count }
    {
        self.count == 0
    }

    // The whole money of these K-ths, rounded up: the one division.
    pub fn rounded_up(self, scale: Scale) -> Money
        ensures value { result ≡ whole (divided_up self.count scale.number) }
        ensures least { RoundedUp self.count scale.number result.count }
    {
        let k = i64::from(scale.k());
        Money::new(if self.count <= 0 {
            self.count / k
        } else {
            (self.count - 1) / k + 1
        })
    }
}

impl<U> fmt::Display for Amount<U> {
    ghost output = { λ m. Some (signed_decimal m.count) };

    fn fmt<W: fmt::Write>(&self, f: &mut fmt::Formatter<W>) -> fmt::Result {
        write!(f, "{}", self.count)
    }
}

impl fmt::Display for OutOfRange {
    fn fmt<W: fmt::Write>(&self, f: &mut fmt::Formatter<W>) -> fmt::Result {
        write!(f, "the exact amount does not fit 64 bits")
    }
}
