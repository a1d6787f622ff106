//! The keys of a scene.
ghost use Rattle.std.specs.Prelude.{◌≡◌, ◌||◌, true};
ghost use Rattle.dmc_scene.specs.Ignored.{client_keys, has_name, scene_keys};
ghost use Rattle.dmc_scene.specs.Keys.{name_of};

/// A key of a scene, in the order in which they are checked. The last seven are keys of each client's table.
#[derive(Clone, Copy, Debug, PartialEq, Eq)]
pub enum Key {
    /// Ticks a second.
    Hz,
    /// The age in ticks from which a clean marks a client idle.
    IdleAge,
    /// The age in ticks from which a clean erases a client.
    EraseAge,
    /// Which tags the queues run on.
    Tags,
    /// The number of servers.
    Servers,
    /// The number of workers of each server.
    Workers,
    /// The ticks of a round of the simulation.
    Step,
    /// The seed of the clients' plans.
    Seed,
    /// The most rounds of a simulation, and the most turns of a server's worker.
    MaxPulls,
    /// Which completions a stamp counts.
    Counting,
    /// What a pull does while each queued request is over its client's limit.
    AtLimit,
    /// In which time shares are compared.
    Shares,
    /// The list of the clients.
    Client,
    /// A client's id.
    Id,
    /// Its least rate, in requests a second.
    Reservation,
    /// Its share of the rest.
    Weight,
    /// Its greatest rate, in requests a second.
    Limit,
    /// The number of its requests.
    Requests,
    /// The number of its requests that may be outstanding.
    Window,
    /// The costs of its requests, in turn.
    Costs,
}

/// The keys of a scene's own table.
pub(crate) const SCENE_KEYS: [Key; 13] = [
    Key::Hz,
    Key::IdleAge,
    Key::EraseAge,
    Key::Tags,
    Key::Servers,
    Key::Workers,
    Key::Step,
    Key::Seed,
    Key::MaxPulls,
    Key::Counting,
    Key::AtLimit,
    Key::Shares,
    Key::Client,
];

/// The keys of a client's table.
pub(crate) const CLIENT_KEYS: [Key; 7] = [
    Key::Id,
    Key::Reservation,
    Key::Weight,
    Key::Limit,
    Key::Requests,
    Key::Window,
    Key::Costs,
];

impl Key {
    /// The name of the key in a scene.
    pub fn name(&self) -> &'static str
        ensures value { result.now ≡ name_of self.now }
        // so none of them is ignored
        ensures listed { (has_name scene_keys result.now || has_name client_keys result.now) ≡ true }
    {
        match self {
            Key::Hz => "hz",
            Key::IdleAge => "idle_age",
            Key::EraseAge => "erase_age",
            Key::Tags => "tags",
            Key::Servers => "servers",
            Key::Workers => "workers",
            Key::Step => "step",
            Key::Seed => "seed",
            Key::MaxPulls => "max_pulls",
            Key::Counting => "counting",
            Key::AtLimit => "at_limit",
            Key::Shares => "shares",
            Key::Client => "client",
            Key::Id => "id",
            Key::Reservation => "reservation",
            Key::Weight => "weight",
            Key::Limit => "limit",
            Key::Requests => "requests",
            Key::Window => "window",
            Key::Costs => "costs",
        }
    }
}
