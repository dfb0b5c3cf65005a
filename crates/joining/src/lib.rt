// One call of a receiver on two shares that have the same parameters and the same reference, and other counts of accepted objects: the chunk's number apart, it
// gives and leaves the same. There is no code.
#![tactic(auto)]
