//! Laws of the definitions of capture files. Each is the contract of a function with an empty body.

ghost use Rattle.std.specs.Prelude.{List};
ghost use Rattle.macsec_pcap.specs.declared.form.Resolution.{Resolution};
ghost use Rattle.macsec_pcap.specs.Laws.{ReadAgain, WholeRecord};

/// A file written with at most 16,777,216 records, times of 32 bits and frames of at most 262,144 octets is read as
/// those records, in the same order.
pub fn read_again()
    ensures { (unit : Resolution) (records : List WholeRecord) → ReadAgain unit records }
{}
