//! A registration, and an update of rates.
ghost use Rattle.std.specs.Prelude.{◌≡◌, ◌≤◌, ◌<◌, [], ◌∷◌, ◌++◌, Some, None, Ok, length, is_some, IfOk, OnOk, OnErr, IsOkUnless};
ghost use Rattle.dmc_types.specs.Limits.{max_clients};
ghost use Rattle.dmc_client.specs.Record.{client_of};
ghost use Rattle.dmc_pull.specs.Queue.{state_of, IsKept};
ghost use Rattle.dmc_pull.specs.internal.Queue.{without_value};
ghost use Rattle.dmc_pull.specs.internal.Registering.{IsRegistration, IsUpdate};
ghost use Rattle.dmc_roster.specs.Entries.{entry_named};
ghost use Rattle.dmc_tag.specs.Rules as rules_of;

use crate::queue::PullQueue;
use crate::records::is_busy;
use dmc_client::record::ClientRec;
use dmc_index::index::Indexes;
use dmc_tag::spacing::{Spacings, spacings_for};
use dmc_tag::tag::Tag;
use dmc_types::ids::ClientId;
use dmc_types::info::ClientInfo;
use dmc_types::limits::MAX_CLIENTS;
use dmc_types::moment::Moment;
use dmc_types::refusal::{QueueFault, Refusal};

impl<T: Tag, I: Indexes<T>> PullQueue<T, I> {
    /// The tests of a registration, and the spacings of the rates.
    pub(super) fn can_register(
        &self,
        client: ClientId,
        info: ClientInfo,
    ) -> Result<Spacings<T>, Refusal>
        ensures outcome { without_value result ≡ rules_of.can_register T.ops (state_of self.now) client info }
        ensures registers { IfOk result (IsRegistration T.ops self.now client info) }
    {
        if self.roster.find(client).is_some() {
            return Err(Refusal::Known);
        }
        let spacings = match spacings_for(self.config.hz(), info) {
            Ok(spacings) => spacings,
            Err(field) => return Err(Refusal::Inexact(field)),
        };
        if self.roster.len() >= MAX_CLIENTS as usize {
            return Err(Refusal::Clients);
        }
        Ok(spacings)
    }

    /// Adds a new client, and reserves capacity for it in all indexes.
    pub(super) fn admit(
        &mut self,
        client: ClientId,
        rec: ClientRec<T>,
        at: Moment,
    ) -> Result<(), QueueFault>
        requires new { entry_named client self.old.roster.entries ≡ None }
        requires room { length self.old.roster.entries < max_clients }
        requires kept { IsKept T.ops T.fraction T.is_value self.old.config.hz rec }
        requires nothing { rec.requests ≡ [] }
        requires zero { rec.previous.p ≡ T.ops.of_moment 0 }
        requires later { self.old.last_moment ≤ at }
        ensures ok { OnOk result (state_of self.new ≡ record (state_of self.old) { clients = (state_of self.old).clients ++ client_of client rec ∷ []; last_moment = at }) }
        ensures err { OnErr result (state_of self.new ≡ state_of self.old) }
        ensures memory { IsOkUnless result QueueFault.Memory }
    {
        let key = self.roster.next_key();
        let Some(room) = key.checked_add(1) else {
            return Err(QueueFault::Memory);
        };
        self.heads.0.reserve(room)?;
        self.roster.add(client, rec)?;
        self.last_moment = at;
        Ok(())
    }

    /// The tests of an update, and the key of the client and the spacings of the rates.
    pub(super) fn can_update(
        &self,
        client: ClientId,
        info: ClientInfo,
    ) -> Result<(usize, Spacings<T>), Refusal>
        ensures outcome { without_value result ≡ rules_of.can_update T.ops (state_of self.now) client info }
        ensures updates { IfOk result (λ p. IsUpdate T.ops self.now client info p.0 p.1) }
    {
        let Some(key) = self.roster.find(client) else {
            return Err(Refusal::Unknown);
        };
        let spacings = match spacings_for(self.config.hz(), info) {
            Ok(spacings) => spacings,
            Err(field) => return Err(Refusal::Inexact(field)),
        };
        if is_busy(self.roster.at(key), info) {
            return Err(Refusal::Busy);
        }
        Ok((key, spacings))
    }
}
