// The known pairs that are proved. There is no code here: specs/ has the list, proofs/ the proof.
#![tactic(auto)]
