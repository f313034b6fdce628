// A day's report (document 02, point 1): which lines tell a stop (specs/Stops.antt), what a day of them comes to (specs/Day.antt), what holds
// of every report (specs/Claims.antt), and worked days (specs/Worked.antt). Definitions, and the proofs of the claims: a line is read as
// the stop that it was printed for and no other is (proofs/Stops.antt), every stop that a start answers is such a line (proofs/Starts.antt),
// the figures hold (proofs/Figures.antt), and the rest (proofs/Claims.antt).
#![tactic(auto)]
