ghost use Rattle.allocation.specs.WorkedExample.{WorkedExamples};
ghost use Rattle.allocation.specs.Range.{TestsAsTold};
ghost use Rattle.allocation.specs.Promise.{FillsAll, InTurn, AtLeastTheShare, RemainderIsSmall, RemainderInTurn};

/// The worked examples of docs/POLICIES.md are what the definitions give.
pub fn worked_examples_hold()
    ensures examples { WorkedExamples }
{}

/// What is refused, by facts.
pub fn tests_are_as_told()
    ensures as_told { TestsAsTold }
{}

/// What a trader may rely on, of any quantity and any level.
pub fn promises_hold()
    ensures fills_all { FillsAll }
    ensures in_turn { InTurn }
    ensures at_least_the_share { AtLeastTheShare }
    ensures remainder_is_small { RemainderIsSmall }
    ensures remainder_in_turn { RemainderInTurn }
{}
