use fix::Side;

/// Where an order rests.
#[derive(Clone, Copy, PartialEq, Eq, Debug)]
pub struct Place {
    pub side: Side,
    pub price: u32,
}
