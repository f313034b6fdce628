// The text form of STAL programs and of samples: bytes to lines to fields (specs/Bytes.antt), what each line says
// (specs/Grammar.antt), pass one and what the text says (specs/PassOne.antt), and the way back to lines (specs/Entries.antt).
// Definitions, and the law that a text without a fault in pass one is its rows and blocks (proofs/).
#![tactic(auto)]
