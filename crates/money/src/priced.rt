// Minutes of capacity and their price.
use crate::limits::{CapacityPrice, Minutes};

mod worth;

// Minutes of one period at that period's price.
#[derive(Clone, Copy, Debug, PartialEq, Eq)]
pub struct PricedTime {
    pub price: CapacityPrice,
    pub minutes: Minutes,
}
