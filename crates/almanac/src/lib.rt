// What the calendar's definitions come to, for the layers that answer by them: no function stands here.
//
// specs/ says it in document 01's words: days and weekdays, what is chosen among records, the
// matrix cell by cell; proofs/ shows it of the definitions of crate `meaning`.
#![tactic(auto)]
