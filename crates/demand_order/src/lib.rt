// In what order calls are refused, and that no call that begins no search is refused for want of a bracket:
// specs/ has what is meant, and proofs/ under the same names that it is so: Order.antt (the rules), Stages.antt (a call in its
// stages), Calls.antt and Searches.antt (each call), Evaluations.antt (searches, fits and baskets), Grounds.antt.
#![tactic(auto)]
