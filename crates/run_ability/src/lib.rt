// Whether a process can move: its readiness read from its part, the partner of its offer, found through the holder of
// the opposite end, and whether any process can. Nothing is written. The contracts are equations on the words of the
// store; what they mean for the definitions' processes is in proofs/Able.antt. Asked is a store of 8,192 words, a
// process below 8, and where the table's instructions begin.
#![tactic(auto)]

pub mod ending;
pub mod ends;
pub mod pairing;
pub mod partner;
pub mod reads;
