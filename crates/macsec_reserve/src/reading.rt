//! What a keeping endpoint holds.

ghost use Rattle.std.specs.Prelude.{◌≡◌};

use crate::Keeper;
use macsec_secy::Secy;

impl Keeper {
    /// The endpoint, for its readers.
    pub fn secy(&self) -> &Secy
        ensures { result.now ≡ self.now.secy }
    {
        &self.secy
    }
}
