// What document 02 asks to be so of the calls, a file of specs/ for each request, quoting it. What is not proved there is proved in
// proofs/, under the same name.
#![tactic(auto)]
