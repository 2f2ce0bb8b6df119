// An example of Wish 5: a change of a small drive, cut at every point and computed by the checker. No code.
#![tactic(auto)]
