// The three demands, stated of any family of replies, and what document 02 asks of messages, stated of any
// family of messages; that ours meet them, and that no others do. No function stands here.
//
// specs/ is what has to be believed: Demands, clause by clause in Demand1, Demand2, Demand3 and Messages. The
// words that they share: Replies (a family of replies, and ours), Bench (a family of messages, and ours), Rules
// (the rules on descriptions), Walk (laying out, item by item), Causes (why there is no such element), Given (the
// first of a list of tests), Calendar (the tier, the season records and the matrix over the tables' octets; the
// weekday of a date). Same says that two families are one; Wrong has wrong programs, each with the clause that
// it breaks.
//
// proofs/, from below:
// Told, Surrounds, Rules: our check says what the rules in words say.
// Around, Lengths, Naming, Stripped, Pieces, Walking, Walked, InTables: laying out comes to what the walk in
// words comes to. Facts and Laid: what the rest leans on of it.
// Calendar: the tier, the season records and the matrix. Weekdays: the weekday of a date.
// Causes, Refused: why there is no such element. Names, Elements, Tables, Made, Outcomes: places. Writes, Writable,
// Dimensions, Allowed, Octets, RangeWrites, ElementWrites: writes. Known, Tests, FirstGiven: refusals. Demand1,
// Demand2, Demand3, Demands: all of it.
// Forms: the forms of messages, without a program. Sending, Reading, Undoing, Serving, Messages: ours have them.
// Only and what begins with its name: the demands decide every reply and every message. Wrong, WrongCauses,
// WrongMessages, WrongWeekdays: the wrong programs.
#![tactic(auto)]
