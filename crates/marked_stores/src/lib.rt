//! In a run of all actors over words, whoever writes one of the words of `specs/News.antt`, in which another actor takes
//! news, makes an entry of the history by that very operation. The definition names doorbell records, tails,
//! consumer indices, owner words and the words of arms; it does not name every word that actors share.
#![tactic(auto)]

pub mod laws;
