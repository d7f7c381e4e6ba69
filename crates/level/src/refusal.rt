ghost use Rattle.std.specs.Prelude.{◌≡◌};
ghost use Rattle.level.specs.declared.refusal.TradeRefusal.TheVariants as refusals;

use allocation::AllocationRefusal;

/// Why an order does not join a level.
#[derive(Clone, Copy, PartialEq, Eq, Debug)]
pub enum AddRefusal {
    /// its lots are 0 or over 999,999
    LotsOutOfRange,
    /// 1,024 orders rest there
    Full,
}

/// Why a level does not trade.
#[derive(Clone, Copy, PartialEq, Eq, Debug)]
pub enum TradeRefusal {
    /// the list has no room for two entries of each order
    ListTooShort,
    /// the policy's refusal
    Policy(AllocationRefusal),
}

impl From<AllocationRefusal> for TradeRefusal {
    ghost from_gives = { λ why refusal. refusal ≡ refusals.Policy why };

    fn from(why: AllocationRefusal) -> TradeRefusal {
        TradeRefusal::Policy(why)
    }
}
