// The cases that document 01 marks to be proved, together as one table, and the examples of its table of faults
// (specs/Marked.antt); likewise cases of packages, document 02's point 3 (specs/Packages.antt): theorems about the definitions, by
// computation. And T as an instance of demand 3's premises (proofs/Instance.antt).
#![tactic(auto)]
