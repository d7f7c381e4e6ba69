/// Why an order does not join a side.
#[derive(Clone, Copy, PartialEq, Eq, Debug)]
pub enum JoinRefusal {
    /// its price is 0 or over 999,999
    PriceOutOfRange,
    /// its lots are 0 or over 999,999
    LotsOutOfRange,
    /// 1,024 orders rest
    Full,
}

/// Why an incoming order does not meet a side.
#[derive(Clone, Copy, PartialEq, Eq, Debug)]
pub enum MeetRefusal {
    /// it is of the same side
    SameSide,
    /// the list has no room for two entries of each of 1,024 orders
    ListTooShort,
}
