// Circuits as tables: the definitions in specs/, and in proofs/ that a circuit is a table and that its layout has one
// reading. The code that reads and evaluates circuits is in `register`.
#![tactic(auto)]
