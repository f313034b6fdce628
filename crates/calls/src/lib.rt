// What holds of every program that can be started, accepted or not: good form is kept, so that no continuing is refused, and
// budgets add (specs/Budgets.antt). Definitions and theorems only.
#![tactic(auto)]
