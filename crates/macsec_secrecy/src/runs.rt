//! Each law is about definitions only: the contract of a function that does nothing.

ghost use Rattle.macsec_secrecy.specs.Complete.{EncryptedOctetsMayDiffer};
ghost use Rattle.macsec_secrecy.specs.Runs.{FramesAreAlike, LinkFramesShow, LinkSaysNothing, NoInputTwice};
ghost use Rattle.macsec_secrecy.specs.Runs.{NumberOfInputs};
ghost use Rattle.macsec_secrecy.specs.Under.{SealedUnderHasAll};

use macsec_link::laws::promises;

/// In each run that meets the premises of `unique_ivs`, each input of AES under a key is used at most once, except the
/// block of zeros.
pub fn no_input_twice()
    ensures once { NoInputTwice }
    ensures number { NumberOfInputs }
{
    // The proof cites this law.
    promises();
}

/// A link frame is what is authenticated only, the ciphertext and the tag; and which octets of the client frame are
/// encrypted. Client frames that agree in length, addresses and the octets that stay clear are alike, whatever their
/// encrypted octets are.
pub fn link_frames_show()
    ensures frames { LinkFramesShow }
    ensures alike { FramesAreAlike }
    ensures free { EncryptedOctetsMayDiffer }
{}

/// In each run that meets the premises of `unique_ivs`, under a key of octets, the link says nothing of the encrypted
/// octets but how many there are, if the function of blocks is not known.
pub fn link_says_nothing()
    ensures { LinkSaysNothing }
{
    // The proof cites this law.
    promises();
}

/// What counts as sealed under a key is each use of the cipher that an end has sealed with its bytes, and no other.
pub fn sealed_under_has_all()
    ensures { SealedUnderHasAll }
{}
