// Chains of numbers through buckets, as a hash table keeps them: for each bucket a head, for each number
// a link. There is no code here: what the heads and links are, and that a walk along them finds all
// that a test can find, is said once for every layout (specs/Chains.antt, proofs/Laws.antt).
#![tactic(auto)]
