// What a call answers, as contracts say it. The definitions stand in specs/; there is no code.
#![tactic(auto)]
