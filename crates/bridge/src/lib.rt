// From the contracts of functions called one after the other to the run of which the theorem speaks. It has no code.
#![tactic(auto)]
