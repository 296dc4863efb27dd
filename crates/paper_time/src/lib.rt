// Time of any box over runs of any calls: its CCMs, its lost peers, its conditions: statements and proofs, no code.
// A run begins with a setting that is taken. A tick needs room for a CCM only where one is due, that is where the period divides its
// number since the setting (`paper_time.Room`). Of what a run leaves only answers are read. Which call sets which timer, and to how many
// ticks, is `paper_time.Sets`: rules 3 and 5 on the settings and the call.
#![tactic(auto)]
