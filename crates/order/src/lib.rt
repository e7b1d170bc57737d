// The common order of a run: specs/Common.antt says what it is, proofs/ has the theorem that every run of the protocol has one.
#![tactic(auto)]
