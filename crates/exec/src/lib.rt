// The machine (Figures 7 and 8 within document 01's limits): words, lent state, one step (specs/Machine.antt); good form,
// starting, continuing and budgets (specs/Run.antt); a run as steps made one after the other (specs/Steps.antt). Definitions, and the
// laws: budgets add, a run is its steps and no others, a call's refusal has a number from 1 to 16 (proofs/).
#![tactic(auto)]
