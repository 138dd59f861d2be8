// No code: statements about whole boards (document 01, The paper board of demand 3), about lines from either end (document 02,
// R-8), and the paper's examples, over the definitions that the contracts of the other crates cite.

#![tactic(auto)]
