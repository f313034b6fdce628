// Demand 3: which words have which closed types (specs/Values.antt), and the claim about every list of startings and
// continuings of an accepted text (specs/Claim.antt), proved in proofs/Demand3.antt; what follows from the claim alone, told
// without types (specs/Consequences.antt, proofs/Consequences.antt). Definitions and theorems only.
#![tactic(auto)]
