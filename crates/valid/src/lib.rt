// Which programs are well typed: the typing rules of Figures 10 to 12 with document 01's bounds (specs/Rules.antt), the
// faults of pass three (specs/PassThree.antt, by the tests of specs/Tests.antt), and the verdict on a text
// (specs/Verdict.antt). The proofs show that the verdict is accepted exactly where the rules type every block, with which
// numbers it refuses, and that sp keeps its bound (specs/Claims.antt); and that where pass three decides, the line is the
// first that the rules do not type (specs/FirstFault.antt) and the item named is the first of its target that does not fit
// (specs/FirstItem.antt). What the grammar allows of a line is in specs/Bounds.antt. Definitions and theorems only.
#![tactic(auto)]
