//! A law of protected frames. It is about definitions only: the contract of a function that does nothing.

ghost use Rattle.std.specs.Prelude.{ℕ, List};
ghost use Rattle.macsec_suite.specs.KeyRows.{InstalledKey};
ghost use Rattle.macsec_tx.specs.declared.TxOptions.{TxOptions};
ghost use Rattle.macsec_tx.specs.declared.TxRow.{TxRow};
ghost use Rattle.macsec_tx.specs.Laws.{CanBeSent, IsReadAsSent};

use macsec_gcm::laws::sealed_lengths;
use macsec_tag::laws::read_again;

/// If a client frame has 14 octets or more, the association number is 0 to 3 and the SCI has 8 octets, then reading the
/// protected frame gives the parts that were sent. The protected frame is as long as the client frame, SecTAG and ICV
/// together.
pub fn read_as_sent()
    ensures { (options : TxOptions) (key : InstalledKey) (row : TxRow) (frame : List ℕ) → CanBeSent options row frame → IsReadAsSent options key row frame }
{
    // The proof cites these laws; the calls do nothing.
    read_again();
    sealed_lengths();
}
