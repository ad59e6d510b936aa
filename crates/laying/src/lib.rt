// What is true of laying out, for the layers that do it: no function stands here.
//
// specs/ has the size of an item for given numbers of the slots, the row that says where its
// elements stand, and what of a tree these lean on; proofs/ shows them of laying out.
#![tactic(auto)]
