// A command has exactly one spelling, and it is read back.
ghost use Rattle.fix.specs.Law.{WrittenIsRead, ReadIsWritten, FirstWrittenIsRead, FirstReadIsWritten, CommandsAreValid, Lengths, WorkedExample};

pub fn one_spelling()
    ensures back { WrittenIsRead }
    ensures only { ReadIsWritten }
    ensures first_back { FirstWrittenIsRead }
    ensures first_only { FirstReadIsWritten }
    ensures valid { CommandsAreValid }
    ensures lengths { Lengths }
    ensures example { WorkedExample }
{}
