// Cipher suites, data units and the splitter over any diffusion function: definitions in specs/, laws in proofs/.
#![tactic(auto)]
