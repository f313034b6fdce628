// What the programs print: numbers in decimal (specs/Decimal.antt), the line of a verdict and of a run's answer (specs/Lines.antt), and how
// a line is written into lent memory (specs/Written.antt). Definitions, and the proofs that what is printed of a number is read as it and
// nothing else is (proofs/Decimal.antt, proofs/Signed.antt).
#![tactic(auto)]
