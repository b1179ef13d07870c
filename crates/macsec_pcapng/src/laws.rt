//! Laws of capture files in either format. They are about the definitions alone: each is the contract of an empty
//! function.

ghost use Rattle.std.specs.Prelude.{List, ℕ};
ghost use Rattle.macsec_pcapng.specs.Captures.{captures_of};
ghost use Rattle.macsec_pcapng.specs.Laws.{FileIsOfFormat};

/// The fault of a file, in its header or after its records, is never `Memory`, `Read` or `Write`.
pub fn faults_are_of_format()
    ensures { (file : List ℕ) → FileIsOfFormat (captures_of file) }
{}
