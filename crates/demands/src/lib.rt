// No code: the mission's three demands as theorems over the public face. proofs/Demand1.antt, Demand2.antt and Demand3.antt have each under
// the user's words; proofs/Once.antt that no second answer meets a contract; proofs/Rows.antt document 01's table of statements and shapes;
// proofs/ShutOut.antt the wrong versions that the demands shut out. specs/ has the words that they use.
#![tactic(auto)]
