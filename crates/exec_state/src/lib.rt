// A load's lent state before a run: its samples read from their text (module samples, fault 15), the good form of what is lent (good_form,
// fault 16), the state at the start (start). Promised: the answers of `samples_of` of crate text, of `long_enough` and `good_form` of crate
// exec, and the words of `initial`.
#![tactic(auto)]

pub mod good_form;
pub mod samples;
pub mod start;
