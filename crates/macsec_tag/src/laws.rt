//! Laws of the SecTAG and of the grammar of frames. They are about definitions only: each is the contract of a function
//! with an empty body.

ghost use Rattle.std.specs.Prelude.{ℕ, List};
ghost use Rattle.macsec_tag.specs.Tag.{Tag};
ghost use Rattle.macsec_tag.specs.Frame.{MpduParts};
ghost use Rattle.macsec_tag.specs.Laws.{AreOctets, OneReading, ReadAgain, ReadsByGrammar, SpelledOnce};

/// Two SecTAGs with the same encoding are the same.
pub fn spelled_once()
    ensures { (t u : Tag) → SpelledOnce t u }
{}

/// A frame has at most one reading.
pub fn one_reading()
    ensures { (frame : List ℕ) → OneReading frame }
{}

/// Reading a frame assembled from parts gives those parts.
pub fn read_again()
    ensures { (p : MpduParts) → ReadAgain p }
{}

/// The table of positions reads every list of octets as the grammar does.
pub fn reads_by_grammar()
    ensures { (frame : List ℕ) → AreOctets frame → ReadsByGrammar frame }
{}
