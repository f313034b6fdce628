// Types: a stack type is its list of items, so that document 01's "equal" is plain equality (specs/Types.antt); filling with
// type arguments; a computed test for equality (specs/Equal.antt); rows to types, sizes and pass two (specs/Rows.antt).
// Definitions, and the laws of filling (proofs/).
#![tactic(auto)]
