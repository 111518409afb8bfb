// No code: what runs mean stands in specs/, and why skipping and scanning agree in proofs/.
#![tactic(auto)]
