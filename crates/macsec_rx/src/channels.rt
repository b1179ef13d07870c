//! The receive SCs and their SAs, and the commands on them.

ghost use Rattle.std.specs.Prelude.{◌≡◌, ◌≤◌, [], ◌∷◌, ◌++◌, length, true, map, slice_get, slice_set, false, IfOk};
ghost use Rattle.std.specs.Prelude.{IfSome, IsSomeAnd, MatchOption, None, OnErr, OnOk, Some, option_map};
ghost use Rattle.macsec_suite.specs.Refusals.{first_refusal, refusal_of};
ghost use Rattle.macsec_rx.specs.Channels.{is_at, no_channels, rx_row, with_rx};
ghost use Rattle.macsec_rx.specs.Index.{row_of_found};
ghost use Rattle.macsec_rx.specs.Limits.{max_row_count};
ghost use Rattle.macsec_rx.specs.Rows.{AreChannels, IsRxRow};
ghost use Rattle.macsec_commands.specs.Scis.{IsSci};
ghost use Rattle.macsec_rx.specs.Judge.{in_use, only_channel, port_of, row_accepting, rows_accepting, sci_of};
ghost use Rattle.macsec_rx.specs.Commands.{HaveRxKeys, channels_narrowed, has_channel, row_narrowed, rx_low_refusals};
ghost use Rattle.macsec_rx.specs.Commands.{rx_row_refusals, rx_sa_refusals, rx_sc_del_refusals};
ghost use Rattle.macsec_rx.specs.Commands.{rx_sc_refusals, rx_uses, with_channel, with_rx_low, with_rx_on, with_rx_sa};
ghost use Rattle.macsec_rx.specs.Commands.{without_channel, without_rx};

use crate::RxRow;
use crate::index::{channel_place, empty_index, index_of, slot};
use arrayvec::ArrayVec;
use macsec_pn::RxNumbers;
use macsec_suite::{KeyNumber, KeyTable, Refusal};
use macsec_tag::{ASSOCIATION_COUNT, An, Mpdu, Sci};
use std::marker::Model;

/// The number of receive SCs that an endpoint can have.
pub const MAX_CHANNEL_COUNT: usize = 64;

/// The number of receive SAs that an endpoint can have: one for each SC and association number.
pub const MAX_ROW_COUNT: usize = MAX_CHANNEL_COUNT * ASSOCIATION_COUNT;

/// An SA that was found.
#[derive(Clone, Copy)]
pub(crate) struct Found {
    /// The position of its SC, in the order of creation.
    pub(crate) channel: usize,
    /// Its position among the SAs.
    pub(crate) place: usize,
    pub(crate) row: RxRow,
}

/// The receive SCs: up to 64, with up to four SAs each. Contracts see them as the list of SCIs and the list of SAs,
/// each in the order of creation.
#[derive(Drop)]
pub struct RxChannels {
    scis: ArrayVec<Sci, MAX_CHANNEL_COUNT>,
    rows: ArrayVec<RxRow, MAX_ROW_COUNT>,
    /// Where each SA is among the rows, by the position of its SC and by its association number. With it a frame takes
    /// the same time for every SA.
    places: [u16; MAX_ROW_COUNT],
}

impl Model for RxChannels {
    ghost use Rattle.macsec_rx.specs.Channels.{Channels};
    ghost use Rattle.macsec_rx.specs.Index.{IsIndex};
    ghost use Rattle.macsec_rx.specs.Rows.{AreChannels};

    ghost Value = { Channels };

    ghost view = { λ c. record { scis = c.scis.items; rows = c.rows.items } };

    // SCs and SAs have the invariant of the definition, and the index finds each SA.
    ghost invariant = { λ c. AreChannels (record { scis = c.scis.items; rows = c.rows.items })
        × IsIndex c.scis.items c.rows.items c.places };
}

impl RxChannels {
    /// Creates an empty `RxChannels`, without SCs and SAs.
    pub fn new() -> RxChannels
        ensures none { result ≡ no_channels }
        ensures channels { AreChannels result }
    {
        RxChannels {
            scis: ArrayVec::new(),
            rows: ArrayVec::new(),
            places: empty_index(),
        }
    }

    /// Become equal to other receive SCs.
    pub fn copy_from(&mut self, other: &RxChannels)
        ensures { self.new ≡ other.now }
    {
        self.scis.clear();
        self.scis
            .try_extend_from_slice(other.scis.as_slice())
            .unwrap();
        self.rows.clear();
        self.rows
            .try_extend_from_slice(other.rows.as_slice())
            .unwrap();
        self.places = other.places;
    }

    /// Returns the SCI of an SC by its position in the order of creation, from 0.
    pub fn channel(&self, place: usize) -> Option<Sci>
        ensures { result ≡ slice_get self.now.scis place }
    {
        self.scis.as_slice().get(place).copied()
    }

    /// The SAs, in the order of creation.
    pub fn rows(&self) -> &[RxRow]
        ensures rows { result.now ≡ self.now.rows }
        ensures count { length self.now.rows ≤ max_row_count }
    {
        self.rows.as_slice()
    }

    /// Returns the SA with this SCI and association number.
    pub fn row(&self, sci: Sci, an: An) -> Option<RxRow>
        ensures { result ≡ rx_row self.now.rows sci an }
    {
        let found = self.found(sci, an)?;
        Some(found.row)
    }

    /// The SA with this SCI and association number, with its positions.
    #[inline(always)]
    fn found(&self, sci: Sci, an: An) -> Option<Found>
        ensures row { MatchOption result (rx_row self.now.rows sci an ≡ None) (λ f. rx_row self.now.rows sci an
            ≡ Some f.row) }
        ensures place { IfSome result (λ f. slice_get self.now.rows f.place ≡ Some f.row) }
        ensures channel { IfSome result (λ f. slice_get self.now.scis f.channel ≡ Some f.row.sci) }
        ensures channels { AreChannels self.now }
    {
        let rows = self.rows.as_slice();
        let channel = channel_place(self.scis.as_slice(), sci)?;
        let place = usize::from(self.places[slot(channel, an)]);
        let row = rows.get(place)?;
        Some(Found {
            channel,
            place,
            row: *row,
        })
    }

    /// Whether an SA uses the key.
    pub fn uses(&self, key: KeyNumber) -> bool
        ensures { result ≡ rx_uses self.now.rows key }
    {
        self.rows.iter().any(|row| row.key == key)
    }

    /// Whether there is an SC with this SCI.
    fn has_channel(&self, sci: Sci) -> bool
        ensures there { result ≡ has_channel self.now.scis sci }
        ensures sci { IsSci sci }
        ensures channels { AreChannels self.now }
    {
        channel_place(self.scis.as_slice(), sci).is_some()
    }

    /// Creates an SC after the others. `own` is the endpoint's own SCI.
    ///
    /// Errors: the first of `OwnSci`, `ScTaken` and `ScFull` that applies.
    pub fn rx_sc(&mut self, own: Sci, sci: Sci) -> Result<(), Refusal>
        ensures refusal { refusal_of result ≡ first_refusal (rx_sc_refusals self.old own sci) }
        ensures done { OnOk result (self.new ≡ with_channel self.old sci) }
        ensures unchanged { OnErr result (self.new ≡ self.old) }
        ensures channels { AreChannels self.new }
    {
        // Shows the prover the invariant of the channels. The compiler deletes the line.
        let _ = &self.scis;
        if sci == own {
            return Err(Refusal::OwnSci);
        }
        if self.has_channel(sci) {
            return Err(Refusal::ScTaken);
        }
        if self.scis.is_full() {
            return Err(Refusal::ScFull);
        }
        self.scis.push(sci);
        Ok(())
    }

    /// Deletes an SC and its SAs. The later SCs move up by one.
    ///
    /// Errors: `NoSc`.
    pub fn rx_sc_del(&mut self, sci: Sci) -> Result<(), Refusal>
        ensures refusal { refusal_of result ≡ first_refusal (rx_sc_del_refusals self.old sci) }
        ensures done { OnOk result (self.new ≡ without_channel self.old sci) }
        ensures unchanged { OnErr result (self.new ≡ self.old) }
        ensures channels { AreChannels self.new }
    {
        if !self.has_channel(sci) {
            return Err(Refusal::NoSc);
        }
        self.scis.retain(|s| *s != sci);
        self.rows.retain(|row| row.sci != sci);
        self.places = index_of(self.scis.as_slice(), self.rows.as_slice());
        Ok(())
    }

    /// Creates an SA. It is disabled, and its lowest acceptable packet number is `lowest`.
    ///
    /// Errors: the first of `NoKey`, `KeyRetired`, `NoSc`, `AnTaken`, `PnRange` and `SsciOwn` that applies. `SsciOwn`
    /// applies only with extended packet numbers.
    pub fn rx_sa(
        &mut self,
        keys: &KeyTable,
        sci: Sci,
        an: An,
        key: KeyNumber,
        ssci: u32,
        lowest: u64,
    ) -> Result<(), Refusal>
        ensures refusal { refusal_of result ≡ first_refusal (rx_sa_refusals keys.now self.old sci an key ssci lowest) }
        ensures done { OnOk result (self.new ≡ with_rx_sa self.old sci an key ssci lowest) }
        ensures unchanged { OnErr result (self.new ≡ self.old) }
        ensures channels { AreChannels self.new }
    {
        // Shows the prover the invariant of the channels, and that the association number is below 4. The compiler
        // deletes both lines.
        let _ = &self.scis;
        let _number = an.number();
        let Some(row) = keys.key(key) else {
            return Err(Refusal::NoKey);
        };
        if row.retired {
            return Err(Refusal::KeyRetired);
        }
        if !self.has_channel(sci) {
            return Err(Refusal::NoSc);
        }
        if self.row(sci, an).is_some() {
            return Err(Refusal::AnTaken);
        }
        let suite = row.suite_key.suite();
        if lowest == 0 || lowest > suite.last() {
            return Err(Refusal::PnRange);
        }
        if suite.is_xpn() && ssci == row.key.ssci {
            return Err(Refusal::SsciOwn);
        }
        let numbers = RxNumbers::at(lowest);
        self.append(RxRow {
            sci,
            an,
            key,
            ssci,
            next: numbers.next,
            lowest: numbers.lowest,
            on: false,
        });
        Ok(())
    }

    /// Enables an SA.
    ///
    /// Errors: `NoSc`, then `NoSa`.
    pub fn rx_on(&mut self, sci: Sci, an: An) -> Result<(), Refusal>
        ensures refusal { refusal_of result ≡ first_refusal (rx_row_refusals self.old sci an) }
        ensures done { OnOk result (self.new ≡ with_rx_on self.old sci an true) }
        ensures unchanged { OnErr result (self.new ≡ self.old) }
        ensures channels { AreChannels self.new }
    {
        let (place, row) = self.find(sci, an)?;
        self.put(place, RxRow { on: true, ..row });
        Ok(())
    }

    /// Disables an SA.
    ///
    /// Errors: `NoSc`, then `NoSa`.
    pub fn rx_off(&mut self, sci: Sci, an: An) -> Result<(), Refusal>
        ensures refusal { refusal_of result ≡ first_refusal (rx_row_refusals self.old sci an) }
        ensures done { OnOk result (self.new ≡ with_rx_on self.old sci an false) }
        ensures unchanged { OnErr result (self.new ≡ self.old) }
        ensures channels { AreChannels self.new }
    {
        let (place, row) = self.find(sci, an)?;
        self.put(place, RxRow { on: false, ..row });
        Ok(())
    }

    /// Raises the lowest acceptable packet number of an SA to `pn`. The key of each SA must be in the table.
    ///
    /// Errors: the first of `NoSc`, `NoSa`, `PnRange` and `PnLower` that applies.
    pub fn rx_low(&mut self, keys: &KeyTable, sci: Sci, an: An, pn: u64) -> Result<(), Refusal>
        requires { HaveRxKeys keys.now self.old.rows }
        ensures refusal { refusal_of result ≡ first_refusal (rx_low_refusals keys.now self.old sci an pn) }
        ensures done { OnOk result (self.new ≡ with_rx_low self.old sci an pn) }
        ensures unchanged { OnErr result (self.new ≡ self.old) }
        ensures channels { AreChannels self.new }
    {
        let (place, row) = self.find(sci, an)?;
        let last = keys.key(row.key).unwrap().suite_key.suite().last();
        if pn == 0 || pn > last {
            return Err(Refusal::PnRange);
        }
        if u128::from(pn) < row.lowest {
            return Err(Refusal::PnLower);
        }
        let mut numbers = row.numbers();
        numbers.raise(pn);
        self.put(place, row.with_numbers(numbers));
        Ok(())
    }

    /// Deletes an SA.
    ///
    /// Errors: `NoSc`, then `NoSa`.
    pub fn rx_del(&mut self, sci: Sci, an: An) -> Result<(), Refusal>
        ensures refusal { refusal_of result ≡ first_refusal (rx_row_refusals self.old sci an) }
        ensures done { OnOk result (self.new ≡ without_rx self.old sci an) }
        ensures unchanged { OnErr result (self.new ≡ self.old) }
        ensures channels { AreChannels self.new }
    {
        self.find(sci, an)?;
        self.rows.retain(|row| !is_at(row, sci, an));
        self.places = index_of(self.scis.as_slice(), self.rows.as_slice());
        Ok(())
    }

    /// Narrows every SA to the replay window: raises its lowest acceptable packet number to its next one minus
    /// `window`, if it is lower.
    pub fn narrow(&mut self, window: u64)
        ensures narrowed { self.new ≡ channels_narrowed self.old window }
        ensures channels { AreChannels self.new }
    {
        narrow(self.rows.as_mut_slice(), window);
    }

    /// The SCI of a received frame. It is the SCI of the SecTAG, if that carries one. Otherwise it is the source
    /// address with port 0 if SCB is set, or with port 1 if ES is set. Otherwise it is the SCI of the only SC, if there
    /// is exactly one.
    fn sci_of(&self, mpdu: &Mpdu<'_>) -> Option<Sci>
        ensures { result ≡ sci_of self.now.scis mpdu.now }
    {
        let tag = mpdu.tag();
        if tag.sci().is_some() {
            tag.sci()
        } else if tag.scb() {
            Some(port_of(&mpdu.addresses()[6..], 0))
        } else if tag.es() {
            Some(port_of(&mpdu.addresses()[6..], 1))
        } else {
            self.only_channel()
        }
    }

    /// The SCI of the only SC, if there is exactly one.
    fn only_channel(&self) -> Option<Sci>
        ensures { result ≡ only_channel self.now.scis }
    {
        match self.scis.as_slice() {
            [sci] => Some(*sci),
            _ => None,
        }
    }

    /// The SA of a received frame, with its positions: the one with its SCI and association number, if it is enabled.
    #[inline(always)]
    pub(crate) fn in_use(&self, mpdu: &Mpdu<'_>) -> Option<Found>
        ensures row { option_map row_of_found result
            ≡ in_use self.now.rows mpdu.now.tag.an (sci_of self.now.scis mpdu.now) }
        ensures place { IfSome result (λ f. slice_get self.now.rows f.place ≡ Some f.row) }
        ensures channel { IfSome result (λ f. slice_get self.now.scis f.channel ≡ Some f.row.sci) }
        ensures channels { AreChannels self.now }
    {
        // Shows the prover the invariant of the channels at each return. The compiler deletes the line.
        let _ = &self.scis;
        let sci = self.sci_of(mpdu)?;
        let found = self.found(sci, mpdu.tag().an())?;
        if found.row.on { Some(found) } else { None }
    }

    /// Records that a frame of the SA `found` was accepted with the packet number `number`. Does nothing if there is no
    /// SA or no number. `window` is the replay window.
    pub(crate) fn accept_at(&mut self, found: &Option<Found>, number: Option<u64>, window: u64)
        requires { IfSome found.now (λ f. slice_get self.old.rows f.place ≡ Some f.row) }
        ensures accepted { self.new
            ≡ record self.old {
              rows = rows_accepting window number
                  (option_map row_of_found found.now) self.old.rows;
            } }
        ensures channels { AreChannels self.new }
    {
        // For the prover, as in `rx_sc`.
        let _ = &self.scis;
        if let Some(found) = found {
            if let Some(number) = number {
                self.accept(found.place, &found.row, number, window);
            }
        }
    }

    /// Records that a frame of the SA at this index was accepted with the packet number `number`. `window` is the
    /// replay window.
    fn accept(&mut self, place: usize, row: &RxRow, number: u64, window: u64)
        requires { slice_get self.old.rows place ≡ Some row.now }
        ensures accepted { self.new
            ≡ record self.old { rows = with_rx (row_accepting window number) row.now.sci row.now.an self.old.rows } }
        ensures channels { AreChannels self.new }
    {
        // For the prover, as in `rx_sc`.
        let _ = &self.scis;
        let mut numbers = row.numbers();
        numbers.accept(number, window);
        self.put(place, row.with_numbers(numbers));
    }

    /// Replaces the SA at this index by one with the same SCI and association number.
    fn put(&mut self, place: usize, row: RxRow)
        requires there { IsSomeAnd (slice_get self.old.rows place) (λ old. (row.sci ≡ old.sci) × (row.an ≡ old.an)) }
        requires row { IsRxRow self.old.scis row }
        ensures rows { self.new ≡ record self.old { rows = slice_set self.old.rows place row } }
        ensures channels { AreChannels self.new }
    {
        self.rows.as_mut_slice()[place] = row;
    }

    fn append(&mut self, row: RxRow)
        requires free { rx_row self.old.rows row.sci row.an ≡ None }
        requires row { IsRxRow self.old.scis row }
        ensures rows { self.new ≡ record self.old { rows = self.old.rows ++ row ∷ [] } }
        ensures channels { AreChannels self.new }
    {
        let channel = channel_place(self.scis.as_slice(), row.sci).unwrap();
        self.places[slot(channel, row.an)] = self.rows.len() as u16;
        self.rows.push(row);
    }

    /// The SA with this SCI and association number, with its index.
    ///
    /// Errors: `NoSc`, then `NoSa`.
    fn find(&self, sci: Sci, an: An) -> Result<(usize, RxRow), Refusal>
        ensures refusal { refusal_of result ≡ first_refusal (rx_row_refusals self.now sci an) }
        ensures row { IfOk result (λ f. rx_row self.now.rows sci an ≡ Some f.1) }
        ensures place { IfOk result (λ f. slice_get self.now.rows f.0 ≡ Some f.1) }
        ensures channels { AreChannels self.now }
    {
        if !self.has_channel(sci) {
            return Err(Refusal::NoSc);
        }
        match self.found(sci, an) {
            Some(found) => Ok((found.place, found.row)),
            None => Err(Refusal::NoSa),
        }
    }
}

fn is_at(row: &RxRow, sci: Sci, an: An) -> bool
    ensures { result ≡ is_at sci an row.now }
{
    row.sci == sci && row.an.number() == an.number()
}

fn row_narrowed(row: RxRow, window: u64) -> RxRow
    ensures { result ≡ row_narrowed window row }
{
    let mut numbers = row.numbers();
    numbers.narrow(window);
    row.with_numbers(numbers)
}

fn narrow(rows: &mut [RxRow], window: u64)
    ensures { rows.new ≡ map (row_narrowed window) rows.old }
{
    for row in rows.iter_mut() {
        *row = row_narrowed(*row, window);
    }
}

/// The SCI of a port at an address of six octets.
fn port_of(address: &[u8], port: u8) -> Sci
    requires { length address.now ≡ 6 }
    ensures { result ≡ port_of address.now port }
{
    let mut octets = [0; 8];
    octets[..6].copy_from_slice(address);
    octets[7] = port;
    Sci(octets)
}
