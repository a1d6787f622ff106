//! What a request carries to a server.
ghost use Rattle.std.specs.Prelude.{◌≡◌};
ghost use Rattle.dmc_ledger.specs.Bundles.{Covers, stamp_holdings};

use crate::bundle::StampTills;
use crate::setup::Setup;
use dmc_types::ids::{ClientId, ServerId};
use dmc_types::params::ReqParams;
use std::marker::Model;

/// A client's stamp for a server: it goes with one request, and can't be copied.
#[derive(Drop)]
pub struct Stamp {
    client: ClientId,
    server: ServerId,
    params: ReqParams,
}

impl Model for Stamp {
    ghost use Rattle.dmc_ledger.specs.Bundles.{StampValue};

    ghost Value = { StampValue };

    ghost view = { λ s. record { client = s.client.0; server = s.server.0; params = s.params } };
}

impl Stamp {
    /// Whose it is.
    pub fn client(&self) -> ClientId
        ensures { result.0 ≡ self.now.client }
    {
        self.client
    }

    /// For which server it is.
    pub fn server(&self) -> ServerId
        ensures { result.0 ≡ self.now.server }
    {
        self.server
    }

    /// The delta and the rho that it carries.
    pub fn params(&self) -> ReqParams
        ensures { result ≡ self.now.params }
    {
        self.params
    }
}

/// A stamp of what the tills hold. A tracker's book calls it once for each stamp that it puts into the tills.
///
/// It is no method of `Stamp`, so a crate that has only the type makes no stamp.
pub fn make_stamp<S: Setup>(
    client: ClientId,
    server: ServerId,
    params: ReqParams,
    _tills: &StampTills<S>,
) -> Stamp
    requires { Covers (stamp_holdings _tills.now) params }
    ensures { result ≡ record { client = client.0; server = server.0; params = params } }
{
    Stamp {
        client,
        server,
        params,
    }
}
