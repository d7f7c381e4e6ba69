// What holds under every policy, of every row of commands that an empty market is put through. docs/BOOK.md has the rules.
ghost use Rattle.market.specs.Split.{Splits};
ghost use Rattle.market.specs.Shape.{AlwaysShaped, KeepsShape, KeepsLots};
ghost use Rattle.market.specs.Balance.{AlwaysBalanced};
ghost use Rattle.market.specs.Reasons.{AlwaysForAReason};
ghost use Rattle.market.specs.Trades.{AlwaysAnswered};
ghost use Rattle.market.specs.Fair.{AlwaysFair};
ghost use Rattle.market.specs.Turns.{AlwaysInTurn};
ghost use Rattle.market.specs.Told.{AlwaysTold};
ghost use Rattle.market.specs.Count.{FewEntries};
ghost use Rattle.market.specs.WorkedExample.{WorkedExample};

use allocation::Policy;

/// A policy's split has a fill for each order of a queue, none above its lots, and they come to the quantity or to all the lots where there are fewer.
pub fn policies_split_queues<P: Policy>()
    ensures splits { (p : P) → Splits (P.Policy.split p) }
{}

/// The levels of each side are sorted, the best first and no price twice; something rests at each, and nothing of 0 lots; the best buy is below
/// the best sell; at most 1,024 orders rest; and a member's order number rests once at most. Every command keeps this of every market that has it, and a
/// bound on the lots of each order too, if it asks for no more.
pub fn markets_keep_their_shape<P: Policy>()
    ensures always { (p : P) → AlwaysShaped (P.Policy.split p) }
    ensures kept { (p : P) → KeepsShape (P.Policy.split p) }
    ensures lots { (p : P) → KeepsLots (P.Policy.split p) }
{}

/// On each side, the lots that a member entered were traded, were cancelled, or rest; the same of each order. As many lots are bought as are sold.
pub fn lots_add_up<P: Policy>()
    ensures balanced { (p : P) → AlwaysBalanced (P.Policy.split p) }
{}

/// A new order is turned down where its number rests, and where 1,024 orders rest and none crosses it, and is accepted otherwise. A cancel removes
/// exactly the order that it names, with all its lots, and is turned down where that does not rest. What is turned down changes nothing.
pub fn commands_are_answered<P: Policy>()
    ensures for_a_reason { (p : P) → AlwaysForAReason (P.Policy.split p) }
{}

/// A command gives one answer, and behind an acceptance its trades, each of at least one lot, with resting orders from the best price on and at each
/// price from the oldest on. A trade gives two entries, the resting order's and then the incoming order's, of the same lots at the price at which
/// the order rested. Every entry has the command's number.
pub fn trades_follow_the_answer<P: Policy>()
    ensures answered { (p : P) → AlwaysAnswered (P.Policy.split p) }
{}

/// The price of a trade is one that the incoming order's limit allows, and the very limit that the resting order was entered with. When the command
/// is done, no order is left at a better price.
pub fn limits_are_kept<P: Policy>()
    ensures fair { (p : P) → AlwaysFair (P.Policy.split p) }
{}

/// The orders at a price keep their order, and a newcomer stands last. An order that is accepted takes of each queue exactly what the policy's split
/// of the lots left for it gives.
pub fn nobody_overtakes<P: Policy>()
    ensures in_turn { (p : P) → AlwaysInTurn (P.Policy.split p) }
{}

/// Replaying all entries, each by what it leaves of its order, gives the lots that rest of every order.
pub fn entries_tell_what_rests<P: Policy>()
    ensures told { (p : P) → AlwaysTold (P.Policy.split p) }
{}

/// A command gives at most one entry, and two for each order that rests; never more than 2,049.
pub fn entries_are_few<P: Policy>()
    ensures few { (p : P) → FewEntries (P.Policy.split p) }
{}

/// The worked example of docs/BOOK.md is what the definitions give.
pub fn worked_example_holds()
    ensures example { WorkedExample }
{}
