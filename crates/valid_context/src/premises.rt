// What pass three's code relies on, and how it answers: definitions only. Tables that stand for a text are within the grammar's
// bounds (proofs/premises/Grammar.antt); the tables stand for a program; an answer names the first item that does not fit.
