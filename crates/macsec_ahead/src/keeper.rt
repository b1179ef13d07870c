//! The endpoint.

ghost use Rattle.std.specs.Prelude.{◌≡◌, ◌≤◌, ◌+◌, ◌∷◌, [], ◌++◌, map, false, length, IfOk, OnErr, option_and_then};
ghost use Rattle.std.specs.Prelude.{vec_capacity, vec_len, if◌then◌else◌};
ghost use Rattle.std.specs.Borrow.{sem};
ghost use Rattle.macsec_tag.specs.Limits.{max_frame_len};
ghost use Rattle.macsec_rx.specs.Channels.{rx_row};
ghost use Rattle.macsec_rx.specs.Limits.{max_row_count};
ghost use Rattle.macsec_secy.specs.Answers.{output_of_command};
ghost use Rattle.macsec_secy.specs.Jobs.{OpensFrame};
ghost use Rattle.macsec_secy.specs.Sound.{IsSound};
ghost use Rattle.macsec_secy.specs.Step.{client_frame, link_frame, operator_command};
ghost use Rattle.macsec_reserve.specs.Answers.{output_of_kept};
ghost use Rattle.macsec_reserve.specs.Entries.{raised_by};
ghost use Rattle.macsec_reserve.specs.Keeping.{endpoint_input, endpoint_output, now_durable};
ghost use Rattle.macsec_ahead.specs.Ahead.{ahead_step, begins_again, command_forgetting, entry_for, floor_of, kept};
ghost use Rattle.macsec_ahead.specs.Ahead.{wanted_to_accept};
ghost use Rattle.macsec_ahead.specs.Answers.{MakesAhead, MakesAloneWith, PlansAhead, output_of_ahead};
ghost use Rattle.macsec_ahead.specs.Ends.{after_retiring, ends_among, no_ends, with_ends, without_key};
ghost use Rattle.macsec_ahead.specs.Limits.{limits_for, limits_with};
ghost use Rattle.macsec_suite.specs.Refusals.{refusal_of};
ghost use Rattle.macsec_reserve.specs.Renewing.{forgetting_refusal};
ghost use Rattle.macsec_ahead.specs.Renewing.{ahead_after_renewing, command_renewing, installs_given_up};
ghost use Rattle.macsec_ahead.specs.Rests.{RestsAs};

use crate::EndTable;
use crate::ends::ended_of;
use macsec_reserve::{
    Keeper, KeptPlan, KeptSent, OpenFault, Reservation, highest, raise, wanted_last,
};
use macsec_secy::{
    An, Command, EndConfig, FrameFault, KeyNumber, LimitedReceived, MAX_FRAME_LEN, NewFault,
    NewKey, OpenedFrame, PnLimits, Refusal, RxRow, Sci, Secy, limited_received,
};
use std::alloc::{AllocError, Global};
use std::marker::Model;
use std::mem::swap;

/// How many receive SAs an endpoint can have.
const MAX_ROW_COUNT: usize = 256;

/// An endpoint that uses a packet number only if it has reserved it. With the option `ahead` it also accepts a packet
/// number only if it has reserved it. It creates no receive SA again at or below where it deleted the SA.
#[derive(Drop)]
pub struct AheadKeeper {
    /// The keeping endpoint.
    keeper: Keeper,
    /// Does it reserve ahead of receiving?
    ahead: bool,
    /// What was reported durable for its receive SAs: an entry for each SA that existed at the last report.
    taken: Vec<Reservation>,
    /// Space for the entries of the next report.
    spare: Vec<Reservation>,
    /// Where deleted SAs ended.
    ended: EndTable,
    /// Has it renewed a key?
    renews: bool,
    /// Space for the SAs as they are before a command.
    rows: Vec<RxRow>,
    /// With the option, the packet numbers that may be accepted from each receive SA, in the order of the SAs. They are
    /// kept so that a frame needs no digest.
    limits: Vec<PnLimits>,
    /// A buffer for the longest frame, for frames that are delivered from tagged ones.
    room: Vec<u8>,
}

impl Model for AheadKeeper {
    ghost use Rattle.std.specs.Prelude.{vec_capacity, vec_len};
    ghost use Rattle.macsec_ahead.specs.Ahead.{Ahead};
    ghost use Rattle.macsec_ahead.specs.Limits.{limits_with};
    ghost use Rattle.macsec_ahead.specs.Space.{HasSpace};
    ghost use Rattle.std.specs.Prelude.{◌≡◌};

    ghost Value = { Ahead };

    ghost view = { λ a. record {
      k = a.keeper;
      ahead = a.ahead;
      taken = a.taken.items;
      ended = a.ended;
      renews =
          a.renews;
    } };

    // There is space for the most SAs that an endpoint can have, and the limits follow from what is reserved.
    ghost invariant = { λ a. HasSpace (vec_capacity a.taken) (vec_capacity a.spare) (vec_capacity a.rows)
        (vec_capacity a.limits) (vec_len a.room)
        × (a.limits.items ≡ limits_with a.ahead a.keeper a.taken.items) };
}

impl AheadKeeper {
    /// An endpoint of this configuration without a journal. Nothing remembers which packet numbers it uses or accepts.
    pub fn new(alloc: Global, config: EndConfig) -> Result<AheadKeeper, NewFault>
        ensures { MakesAloneWith config result }
    {
        let keeper = match Keeper::new(alloc, config) {
            Ok(keeper) => keeper,
            Err(fault) => return Err(fault),
        };
        let Ok(made) = AheadKeeper::with(alloc, keeper, false) else {
            return Err(NewFault::Memory);
        };
        Ok(made)
    }

    /// An endpoint of this configuration, with a journal of these octets. With `ahead` it reserves packet numbers ahead
    /// of receiving.
    pub fn open(
        alloc: Global,
        config: EndConfig,
        journal: &[u8],
        ahead: bool,
    ) -> Result<AheadKeeper, OpenFault>
        ensures { MakesAhead ahead config journal.now result }
    {
        let keeper = match Keeper::open(alloc, config, journal) {
            Ok(keeper) => keeper,
            Err(fault) => return Err(fault),
        };
        let Ok(made) = AheadKeeper::with(alloc, keeper, ahead) else {
            return Err(OpenFault::Memory);
        };
        Ok(made)
    }

    /// A second endpoint that is equal to this one. Of two such endpoints only one may send or receive from then on, or
    /// an IV is used twice.
    pub(crate) fn try_clone(&self, alloc: Global) -> Result<AheadKeeper, AllocError>
        ensures { IfOk result (λ a. a ≡ self.now) }
    {
        let keeper = self.keeper.try_clone(alloc)?;
        let mut made = AheadKeeper::with(alloc, keeper, self.ahead)?;
        made.taken.extend_from_slice(self.taken.as_slice())?;
        made.limits.clear();
        made.limits.extend_from_slice(self.limits.as_slice())?;
        made.ended = self.ended.try_clone(alloc)?;
        made.renews = self.renews;
        Ok(made)
    }

    /// A keeping endpoint with nothing reserved for its SAs, and none deleted.
    fn with(alloc: Global, keeper: Keeper, ahead: bool) -> Result<AheadKeeper, AllocError>
        ensures { IfOk result (λ a. a
            ≡ record { k = keeper; ahead = ahead; taken = []; ended = no_ends; renews = false }) }
    {
        let taken: Vec<Reservation> = Vec::with_capacity(alloc, MAX_ROW_COUNT)?;
        let spare = Vec::with_capacity(alloc, MAX_ROW_COUNT)?;
        let ended = EndTable::new(alloc)?;
        let rows = Vec::with_capacity(alloc, MAX_ROW_COUNT)?;
        let mut limits = Vec::with_capacity(alloc, MAX_ROW_COUNT)?;
        take_limits(&mut limits, taken.as_slice(), &keeper, ahead);
        let room = vec![in alloc; 0; MAX_FRAME_LEN]?;
        Ok(AheadKeeper {
            keeper,
            ahead,
            taken,
            spare,
            ended,
            renews: false,
            rows,
            limits,
            room,
        })
    }

    /// The keeping endpoint, for the calls that change nothing.
    pub fn keeper(&self) -> &Keeper
        ensures { result.now ≡ self.now.k }
    {
        &self.keeper
    }

    /// The endpoint is sound, whichever calls were made before: the premise of the laws over restarts at this moment.
    /// The call does nothing.
    pub fn is_sound(&self)
        ensures { IsSound self.now.k.secy }
    {
        // For the prover only: it learns from `Secy::send_uncontrolled` that the endpoint is sound.
        let _ = self.keeper.secy().send_uncontrolled(&[]);
    }

    /// Says whether key streams are to be made 16 blocks at once, as `Secy::prefer_wide`.
    pub fn prefer_wide(&mut self, wide: bool)
        ensures { self.new ≡ self.old }
    {
        self.keeper.prefer_wide(wide);
    }

    /// Transmits a client frame, as `Keeper::send`.
    pub fn send<'a>(&'a mut self, frame: &'a [u8]) -> Result<KeptSent<'a>, FrameFault>
        ensures* after { sem 𝓛 (RestsAs self.entry (ahead_step self.old (endpoint_input (client_frame frame.now))).1) }
        ensures output { kept (output_of_kept result)
            ≡ (ahead_step self.old (endpoint_input (client_frame frame.now))).0 }
    {
        self.keeper.send(frame)
    }

    /// Plans a client frame, as `Keeper::plan_send`.
    pub fn plan_send<'a>(&mut self, frame: &'a [u8]) -> Result<KeptPlan<'a>, FrameFault>
        ensures after { self.new ≡ (ahead_step self.old (endpoint_input (client_frame frame.now))).1 }
        ensures output { PlansAhead result self.new.k.secy.keys frame.now (ahead_step self.old (endpoint_input
            (client_frame frame.now))).0 }
    {
        self.keeper.plan_send(frame)
    }

    /// Receives a link frame, as `Keeper::receive`. With the option, a valid frame is dropped if its packet number is
    /// not reserved in this run. The delivered frame is in `out`, which has `MAX_FRAME_LEN` octets or more. If nothing
    /// is delivered, the octets of `out` mean nothing.
    pub fn receive<'a>(
        &mut self,
        frame: &'a [u8],
        out: &'a mut [u8],
    ) -> Result<LimitedReceived<'a>, FrameFault>
        requires { max_frame_len ≤ length out.old }
        ensures after { self.new ≡ (ahead_step self.old (endpoint_input (link_frame frame.now))).1 }
        ensures output { output_of_ahead result ≡ (ahead_step self.old (endpoint_input (link_frame frame.now))).0 }
    {
        self.finish_receive(frame, &None, out)
    }

    /// Receives a link frame, as `receive`. The delivered frame is in the endpoint's own buffer.
    pub fn receive_inside<'a>(
        &'a mut self,
        frame: &'a [u8],
    ) -> Result<LimitedReceived<'a>, FrameFault>
        ensures* after { sem 𝓛 (RestsAs self.entry (ahead_step self.old (endpoint_input (link_frame frame.now))).1) }
        ensures output { output_of_ahead result ≡ (ahead_step self.old (endpoint_input (link_frame frame.now))).0 }
    {
        match self.keeper.receive_into(
            self.limits.as_slice(),
            frame,
            &None,
            self.room.as_mut_slice(),
        ) {
            Ok(outcome) => Ok(limited_received(&outcome, frame, self.room.as_slice())),
            Err(fault) => Err(fault),
        }
    }

    /// Receives a link frame, as `Keeper::finish_receive`, whether it was opened before or not. With the option, a
    /// valid frame is dropped if its packet number is not reserved in this run; then `out` may have octets of its
    /// plaintext.
    pub fn finish_receive<'a>(
        &mut self,
        frame: &'a [u8],
        opened: &Option<OpenedFrame>,
        out: &'a mut [u8],
    ) -> Result<LimitedReceived<'a>, FrameFault>
        requires room { max_frame_len ≤ length out.old }
        requires opened { OpensFrame opened.now self.old.k.secy.keys frame.now out.old }
        ensures after { self.new ≡ (ahead_step self.old (endpoint_input (link_frame frame.now))).1 }
        ensures output { output_of_ahead result ≡ (ahead_step self.old (endpoint_input (link_frame frame.now))).0 }
    {
        let outcome = match self
            .keeper
            .receive_into(self.limits.as_slice(), frame, opened, out)
        {
            Ok(outcome) => outcome,
            Err(fault) => return Err(fault),
        };
        Ok(limited_received(&outcome, frame, out))
    }

    /// Notes that a reservation is durable: its record is on stable storage, where every later run will read it. A
    /// reservation whose name belongs to no key and to no receive SA reserves nothing in this run.
    pub fn now_durable(&mut self, reservation: &Reservation)
        ensures { self.new ≡ (ahead_step self.old (now_durable reservation.now)).1 }
    {
        report(
            &mut self.spare,
            self.taken.as_slice(),
            &self.keeper,
            reservation,
        );
        swap(&mut self.taken, &mut self.spare);
        self.keeper.now_durable(reservation);
        take_limits(
            &mut self.limits,
            self.taken.as_slice(),
            &self.keeper,
            self.ahead,
        );
    }

    /// The reservation to make durable next, to accept up to `amount` packet numbers after `next` from the receive SA
    /// of this SCI and association number, if fewer than half of them are reserved. `next` is the SA's next packet
    /// number, or the packet number of a frame that was dropped.
    pub fn wanted_to_accept(&self, sci: Sci, an: An, amount: u64, next: u128) -> Option<Reservation>
        ensures { result ≡ option_and_then (wanted_to_accept self.now amount next)
            (rx_row self.now.k.secy.rx.rows sci an) }
    {
        match self.keeper.secy().rx_row(sci, an) {
            None => None,
            Some(row) => self.wanted_for(&row, amount, next),
        }
    }

    /// The reservation to make durable next for an SA.
    fn wanted_for(&self, row: &RxRow, amount: u64, next: u128) -> Option<Reservation>
        ensures { result ≡ wanted_to_accept self.now amount next row.now }
    {
        let name = self.keeper.name_of_row(row);
        let reserved = highest(self.taken.as_slice(), &name);
        match wanted_last(reserved, next, amount) {
            None => None,
            Some(last) => Some(Reservation { name, last }),
        }
    }

    /// The highest packet number that an earlier run, or this run before it deleted the SA, may have accepted from the
    /// receive SA of this SCI and association number under the key of this number. It is 0 if there is none, and `None`
    /// if there is no such key. The SA begins above it.
    pub fn rx_floor(&self, sci: Sci, an: An, key: KeyNumber) -> Option<u64>
        ensures { result ≡ floor_of sci an self.now key }
    {
        match self.keeper.rx_floor(sci, an, key) {
            None => None,
            Some(last) => Some(last.max(self.ended.end_of(key, sci, an))),
        }
    }

    /// Carries out a management command, as `Keeper::command`. A receive SA that this run deleted does not begin again
    /// at or below its end: such a command is refused with `PnFloor`, before any other refusal. Octets that are given
    /// up are not refused: `command_renewing` refuses them.
    pub fn command(&mut self, command: &Command) -> Result<(), Refusal>
        ensures output { kept (endpoint_output (output_of_command result))
            ≡ (ahead_step self.old (endpoint_input (operator_command command.now))).0 }
        ensures after { self.new ≡ (ahead_step self.old (endpoint_input (operator_command command.now))).1 }
    {
        if self.begins_again(command) {
            return Err(Refusal::PnFloor);
        }
        let keeps = self.keeper.has_journal();
        copy_rows(&mut self.rows, self.keeper.secy());
        let done = self.keeper.command(command);
        let rows = self.rows.as_slice();
        add_ends(
            &mut self.ended,
            self.keeper.secy(),
            rows,
            keeps,
            command,
            done.is_ok(),
        );
        take_limits(
            &mut self.limits,
            self.taken.as_slice(),
            &self.keeper,
            self.ahead,
        );
        done
    }

    /// Carries out a management command, as `command`, and forgets a key that it retires, as
    /// `Keeper::command_forgetting`. Octets that are given up are not refused either.
    pub fn command_forgetting(&mut self, command: &Command) -> Result<(), Refusal>
        ensures output { kept (endpoint_output (output_of_command result))
            ≡ (command_forgetting self.old command.now).0 }
        ensures after { self.new ≡ (command_forgetting self.old command.now).1 }
    {
        if self.begins_again(command) {
            return Err(Refusal::PnFloor);
        }
        let keeps = self.keeper.has_journal();
        copy_rows(&mut self.rows, self.keeper.secy());
        let done = self.keeper.command_forgetting(command);
        let rows = self.rows.as_slice();
        add_ends(
            &mut self.ended,
            self.keeper.secy(),
            rows,
            keeps,
            command,
            done.is_ok(),
        );
        take_limits(
            &mut self.limits,
            self.taken.as_slice(),
            &self.keeper,
            self.ahead,
        );
        done
    }

    /// Installs a key, also under the number of a retired key that no SA uses, as `Keeper::renew_forgetting`.
    /// Everything else goes on where it is: every other key, the SAs with their packet numbers and windows, what was
    /// reported durable for them, the counters, and where SAs under other keys ended. From then on `command_renewing`
    /// refuses octets that are given up.
    pub fn renew_key(&mut self, key: &NewKey) -> Result<Result<(), Refusal>, AllocError>
        ensures refusal { IfOk result (λ answer. refusal_of answer ≡ forgetting_refusal self.old.k key.now) }
        ensures after { IfOk result (λ answer. self.new ≡ ahead_after_renewing self.old key.now) }
        ensures unchanged { OnErr result (self.new ≡ self.old) }
    {
        match self.keeper.renew_forgetting(key)? {
            Ok(()) => {
                self.ended.remove(key.number);
                self.renews = true;
                take_limits(
                    &mut self.limits,
                    self.taken.as_slice(),
                    &self.keeper,
                    self.ahead,
                );
                Ok(Ok(()))
            }
            Err(refusal) => Ok(Err(refusal)),
        }
    }

    /// Carries out a management command, as `command_forgetting`. Once `renew_key` has installed a key, octets whose
    /// row a new key took are refused with `KeyRepeated`, before any other refusal.
    pub fn command_renewing(&mut self, command: &Command) -> Result<(), Refusal>
        ensures output { kept (endpoint_output (output_of_command result)) ≡ (command_renewing self.old command.now).0 }
        ensures after { self.new ≡ (command_renewing self.old command.now).1 }
    {
        if self.installs_given_up(command) {
            return Err(Refusal::KeyRepeated);
        }
        self.command_forgetting(command)
    }

    /// Does a command install octets whose row a new key took?
    fn installs_given_up(&self, command: &Command) -> bool
        ensures { result ≡ installs_given_up self.now command.now }
    {
        match *command {
            Command::Key(key) => self.renews && self.keeper.is_given_up(key.bytes),
            _ => false,
        }
    }

    /// Does a command create an SA again at a packet number that this run may have accepted from it?
    fn begins_again(&self, command: &Command) -> bool
        ensures { result ≡ begins_again self.now (operator_command command.now) }
    {
        match *command {
            Command::RxSa {
                sci,
                an,
                key,
                lowest,
                ..
            } => 0 < lowest && lowest <= self.ended.end_of(key, sci, an),
            _ => false,
        }
    }
}

/// Makes an entry for each receive SA, with what was reported durable for it before and now.
fn report(entries: &mut Vec<Reservation>, taken: &[Reservation], keeper: &Keeper, by: &Reservation)
    requires { max_row_count ≤ vec_capacity entries.old }
    ensures items { entries.new.items
        ≡ map (raised_by by.now) (map (entry_for keeper.now taken.now) keeper.now.secy.rx.rows) }
    ensures space { vec_capacity entries.old ≤ vec_capacity entries.new }
{
    entries.clear();
    append_entries(entries, keeper.secy().rx_rows(), taken, keeper);
    raise(entries.as_mut_slice(), by);
}

/// Appends an entry for each of these SAs.
fn append_entries(
    entries: &mut Vec<Reservation>,
    rows: &[RxRow],
    taken: &[Reservation],
    keeper: &Keeper,
)
    requires { vec_len entries.old + length rows.now ≤ vec_capacity entries.old }
    ensures items { entries.new.items ≡ entries.old.items ++ map (entry_for keeper.now taken.now) rows.now }
    ensures space { vec_capacity entries.old ≤ vec_capacity entries.new }
{
    for row in rows {
        entries.push(entry_for(row, taken, keeper)).unwrap();
    }
}

/// The entry of an SA.
fn entry_for(row: &RxRow, taken: &[Reservation], keeper: &Keeper) -> Reservation
    ensures { result ≡ entry_for keeper.now taken.now row.now }
{
    let name = keeper.name_of_row(row);
    let last = highest(taken, &name);
    Reservation { name, last }
}

/// Makes the limits of each receive SA again, by what was reported durable for it. Without the option there are none.
fn take_limits(limits: &mut Vec<PnLimits>, taken: &[Reservation], keeper: &Keeper, ahead: bool)
    requires { max_row_count ≤ vec_capacity limits.old }
    ensures items { limits.new.items ≡ limits_with ahead keeper.now taken.now }
    ensures space { vec_capacity limits.old ≤ vec_capacity limits.new }
{
    limits.clear();
    if ahead {
        append_limits(limits, keeper.secy().rx_rows(), taken, keeper);
    }
}

/// Appends the limits of each of these SAs.
fn append_limits(limits: &mut Vec<PnLimits>, rows: &[RxRow], taken: &[Reservation], keeper: &Keeper)
    requires { vec_len limits.old + length rows.now ≤ vec_capacity limits.old }
    ensures items { limits.new.items ≡ limits.old.items ++ map (limits_for keeper.now taken.now) rows.now }
    ensures space { vec_capacity limits.old ≤ vec_capacity limits.new }
{
    for row in rows {
        limits.push(limits_for(row, taken, keeper)).unwrap();
    }
}

/// The limits of an SA.
fn limits_for(row: &RxRow, taken: &[Reservation], keeper: &Keeper) -> PnLimits
    ensures { result ≡ limits_for keeper.now taken.now row.now }
{
    let name = keeper.name_of_row(row);
    let before = keeper.reserved_before(&name);
    let upto = highest(taken, &name);
    PnLimits { before, upto }
}

/// Takes a copy of the receive SAs.
fn copy_rows(rows: &mut Vec<RxRow>, secy: &Secy)
    requires { max_row_count ≤ vec_capacity rows.old }
    ensures items { rows.new.items ≡ secy.now.rx.rows }
    ensures space { vec_capacity rows.old ≤ vec_capacity rows.new }
{
    rows.clear();
    append_rows(rows, secy.rx_rows());
}

/// Appends these SAs.
fn append_rows(rows: &mut Vec<RxRow>, more: &[RxRow])
    requires { vec_len rows.old + length more.now ≤ vec_capacity rows.old }
    ensures items { rows.new.items ≡ rows.old.items ++ more.now }
    ensures space { vec_capacity rows.old ≤ vec_capacity rows.new }
{
    for row in more {
        rows.push(*row).unwrap();
    }
}

/// Updates the table of ends after a command, if the endpoint has a journal. `rows` are the SAs before the command, and
/// `secy` is the endpoint after it.
fn add_ends(
    ended: &mut EndTable,
    secy: &Secy,
    rows: &[RxRow],
    keeps: bool,
    command: &Command,
    done: bool,
)
    ensures { ended.new ≡ (if keeps then after_retiring command.now done (with_ends
        (ends_among secy.now rows.now) ended.old) else ended.old) }
{
    if !keeps {
        return;
    }
    add_each_end(ended, secy, rows);
    remove_retired(ended, command, done);
}

/// Removes the ends of the key that a command has retired, if it has retired one.
fn remove_retired(ended: &mut EndTable, command: &Command, done: bool)
    ensures { ended.new ≡ after_retiring command.now done ended.old }
{
    let Command::Retire(key) = *command else {
        return;
    };
    remove_if(ended, key, done);
}

/// Removes the ends of a key, if it is retired.
fn remove_if(ended: &mut EndTable, key: KeyNumber, done: bool)
    ensures { ended.new ≡ (if done then without_key key ended.old else ended.old) }
{
    if done {
        ended.remove(key);
    }
}

/// Adds the ends of these SAs that the endpoint does not have.
fn add_each_end(ended: &mut EndTable, secy: &Secy, rows: &[RxRow])
    ensures { ended.new ≡ with_ends (ends_among secy.now rows.now) ended.old }
{
    for row in rows {
        add_end(ended, secy, row);
    }
}

/// Adds the end of an SA, if the endpoint does not have it.
fn add_end(ended: &mut EndTable, secy: &Secy, row: &RxRow)
    ensures { ended.new ≡ with_ends (ends_among secy.now (row.now ∷ [])) ended.old }
{
    if secy.rx_row(row.sci, row.an).is_none() {
        ended.add(&ended_of(row));
    }
}
