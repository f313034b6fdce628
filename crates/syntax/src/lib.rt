// The abstract syntax of STAL programs: rows, operands, instructions, lines (specs/Syntax.antt), and what a refusal
// names: a set of faults for each line, of which the least is given (specs/Fault.antt). Definitions only.
#![tactic(auto)]
