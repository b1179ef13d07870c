//! Why the promises need their premises: worked runs, each proved of the definitions of `macsec_link` or
//! `macsec_reserve`. All of it is in `proofs/`; there is no code, and no function's contract states it.
//!
//! `proofs/Link/`: two ends and their link, the runs that `docs/LINK.md` names. Each premise of the four promises is
//! needed, except the premise of order on the suite, about which only the fact about IVs is proved (`OtherSuites.antt`):
//! a run meets the other premises, and the promise without this one is false for it. A run with a frame whose ICV is
//! wrong is given as two, whose frames differ only in the ICV: at least one of the ICVs is wrong; which one is not
//! stated. Runs meet all premises of acceptance (`AcceptedExample.antt`; it ends before the delivery), of origin and
//! order (`Exchange.antt`) and of packet numbers (`PremisesMet.antt`). A frame that an end sends protected stays on the
//! link. In a run that is sound at each moment it meets the premise that no tag is forged whenever it arrives at the
//! other end, as sent or padded, and the premises of acceptance hold (`GenuineInTime.antt`).
//!
//! `proofs/Restarts/`: for each premise of `repeats_no_iv` runs that meet the other premises and seal two frames with
//! the same key octets and the same IV (`IvPremises.antt`, `UnsoundKey.antt`), and so for each premise on two ends of
//! `repeats_no_iv_at_both` (`TwoEndsPremises.antt`). For each premise of `never_delivers_again` two runs that meet the
//! other premises; the later one delivers what the earlier one accepted (`ReplayPremises.antt`). No cipher is computed:
//! of a tag it is known only that it has 16 octets and opens. Digests are, to see that under another salt of the journal
//! a key has another name.
#![tactic(auto)]
