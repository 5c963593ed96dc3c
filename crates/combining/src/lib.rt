// What pairs and renamings of tables mean: definitions in specs/, and in proofs/ that each is a table.
#![tactic(auto)]
