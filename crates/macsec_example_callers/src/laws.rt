//! Cites a law: its call does nothing, and what the law ensures is known afterwards.

ghost use Rattle.std.specs.Prelude.{List, true};
ghost use Rattle.macsec_restarts.specs.Happenings.{Happening};
ghost use Rattle.macsec_restarts.specs.RenewingOrder.{ComesInOrderIfReadRenewing};

use macsec_restarts::laws::comes_in_order_if_kept_renewing;

/// Two ends that both reserve ahead of receiving, over all their runs: what each of them delivers from an SA (secure
/// association) is in the order of sending, and each frame at most once. `ComesInOrderIfReadRenewing` has the premises.
pub fn ends_keep_order()
    ensures { (events : List Happening) → ComesInOrderIfReadRenewing (λ e n. true) events }
{
    comes_in_order_if_kept_renewing();
}
