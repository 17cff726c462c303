// Names as numbers: what a number stands for, and what it is to note the numbers of a row's names. There
// is no code here; the dictionary gives the numbers, and whoever works with them needs no more than
// this (specs/Numbers.antt, specs/Noted.antt, proofs/Laws.antt).
#![tactic(auto)]
