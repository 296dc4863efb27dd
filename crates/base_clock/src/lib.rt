// Time: any timer, any hold time, any period, any field of a state over any run of calls: definitions and laws, no code.
// The counter of a period may start anywhere from 1 to the period, since a state that is passed in may have any count left.
#![tactic(auto)]
