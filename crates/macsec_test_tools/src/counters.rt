//! The counters that a run over a capture prints at its end, for frames whose data have 2 octets. The sender protects
//! for integrity only; the receiver has one SC with one SA. `macsec_tests` compares its output with these.

/// Two frames were sent.
pub const COUNTERS_OF_TWO_SENT: &str = "end InPktsUntagged 0\n\
    end InPktsNoTag 0\n\
    end InPktsBadTag 0\n\
    end InPktsReserved 0\n\
    end InPktsNoSA 0\n\
    end InPktsNoSAError 0\n\
    end InOctetsValidated 0\n\
    end InOctetsDecrypted 0\n\
    end OutPktsUntagged 0\n\
    end OutPktsTooLong 0\n\
    end OutPktsNoSA 0\n\
    end OutPktsProtected 2\n\
    end OutPktsEncrypted 0\n\
    end OutOctetsProtected 4\n\
    end OutOctetsEncrypted 0\n";

/// Two frames were received, and both were valid.
pub const COUNTERS_OF_TWO_RECEIVED: &str = "end InPktsUntagged 0\n\
    end InPktsNoTag 0\n\
    end InPktsBadTag 0\n\
    end InPktsReserved 0\n\
    end InPktsNoSA 0\n\
    end InPktsNoSAError 0\n\
    end InOctetsValidated 4\n\
    end InOctetsDecrypted 0\n\
    end OutPktsUntagged 0\n\
    end OutPktsTooLong 0\n\
    end OutPktsNoSA 0\n\
    end OutPktsProtected 0\n\
    end OutPktsEncrypted 0\n\
    end OutOctetsProtected 0\n\
    end OutOctetsEncrypted 0\n\
    end 0200000000010001 InPktsOK 2\n\
    end 0200000000010001 InPktsUnchecked 0\n\
    end 0200000000010001 InPktsDelayed 0\n\
    end 0200000000010001 InPktsLate 0\n\
    end 0200000000010001 InPktsInvalid 0\n\
    end 0200000000010001 InPktsNotValid 0\n\
    end 0200000000010001 0 InPktsOK 2\n\
    end 0200000000010001 0 InPktsUnchecked 0\n\
    end 0200000000010001 0 InPktsDelayed 0\n\
    end 0200000000010001 0 InPktsLate 0\n\
    end 0200000000010001 0 InPktsInvalid 0\n\
    end 0200000000010001 0 InPktsNotValid 0\n";
