//! Laws that follow from the rules alone. Each law is the contract of a function that does nothing.
ghost use Rattle.std.specs.Prelude.{◌≡◌, ℕ, ◌⊎◌, ◌++◌, ◌∷◌, [], Bool, true, List, Some, Ok, Err};
ghost use Rattle.dmc_types.specs.Values.{Setting, Rates, Params};
ghost use Rattle.dmc_types.specs.declared.ids.ClientId.{ClientId};
ghost use Rattle.dmc_types.specs.declared.ids.Token.{Token};
ghost use Rattle.dmc_types.specs.declared.config.PhaseType.{PhaseType};
ghost use Rattle.dmc_types.specs.declared.refusal.Refusal.{Refusal};
ghost use Rattle.dmc_types.specs.declared.command.Command.{Command};
ghost use Rattle.dmc_types.specs.declared.command.Command.TheVariants as commands;
ghost use Rattle.dmc_tag.specs.Laws.{Pulls, IsNextDue};
ghost use Rattle.dmc_tag.specs.Order.{AreSpacings, AreNext};
ghost use Rattle.dmc_tag.specs.Queued.{AreActive, is_add_of};
ghost use Rattle.dmc_tag.specs.Replay.{after, replays};
ghost use Rattle.dmc_tag.specs.Rules.{next_tags};
ghost use Rattle.dmc_tag.specs.State.{State, effective, has_queued, is_active, queued_requests};
ghost use Rattle.dmc_tag.specs.Step.{outcome, step};
ghost use Rattle.dmc_tag.specs.declared.event.Event.{Event};
ghost use Rattle.dmc_tag.specs.declared.plain.Previous.{Previous};
ghost use Rattle.dmc_tag.specs.declared.spacing.Spacings.{Spacings};
ghost use Rattle.dmc_tag.specs.declared.reply.Tags.{Tags};
ghost use Rattle.dmc_tag.specs.declared.reply.Reply.TheVariants as replies;

use crate::tag::Tag;

/// A history with one event more: the state after it is one step further. It replays exactly if the history does and the
/// event's reply is that of the step.
pub fn histories_grow<T: Tag>()
    ensures state { (config : Setting) (events : List (Event T)) (e : Event T) →
        after T.ops config (events ++ e ∷ []) ≡ (step T.ops (after T.ops config events) e.command).0 }
    ensures replay { (config : Setting) (events : List (Event T)) (e : Event T) → replays T.ops config events →
        e.reply ≡ (step T.ops (after T.ops config events) e.command).1 → replays T.ops config (events ++ e ∷ []) }
    ensures replayed { (config : Setting) (events : List (Event T)) (e : Event T) → replays T.ops config (events ++ e ∷ []) →
        replays T.ops config events × (e.reply ≡ (step T.ops (after T.ops config events) e.command).1) }
{}

/// A client with a queued request is not idle. This holds after each history, and a step keeps it.
pub fn queued_clients_are_active<T: Tag>()
    ensures history { (config : Setting) (events : List (Event T)) (id : ClientId) →
        has_queued id (after T.ops config events).clients ≡ true → is_active id (after T.ops config events).clients ≡ true }
    ensures one_step { (s : State T) (command : Command) → AreActive s.clients → AreActive ((step T.ops s command).0).clients }
{}

/// If a client has a queued request after a step, it had one before it, or the step is an Add of this client.
pub fn only_an_add_queues<T: Tag>()
    ensures { (s : State T) (command : Command) (id : ClientId) → has_queued id ((step T.ops s command).0).clients ≡ true →
        (has_queued id s.clients ≡ true) ⊎ (is_add_of id command ≡ true) }
{}

/// A client that is granted had a queued request.
pub fn grants_what_is_queued<T: Tag>()
    ensures { (s : State T) (command : Command) (client : ClientId) (token : Token) (phase : PhaseType) (beyond : Bool) (cost : ℕ) →
        (step T.ops s command).1 ≡ replies.Granted client token phase beyond cost → has_queued client s.clients ≡ true }
{}

/// The request that is granted is in its set, and no member of the set is before it in (tag, client, arrival). The reply to a pull
/// says which set it was, and that the sets before it have no member. A grant in the weight phase takes hz/r for each unit of its cost
/// off the R tags of its client, one in the constraint phase takes nothing off, and all else stays.
pub fn pulls_grant_the_best<T: Tag>()
    ensures { (s : State T) (at : ℕ) → Pulls T.ops (effective s at) s ((step T.ops s (commands.Pull at)).0) ((step T.ops s (commands.Pull at)).1) }
{}

/// Future is exact: before its moment no request is early or free, and at it one is.
pub fn future_is_exact<T: Tag>()
    ensures { (s : State T) (at m : ℕ) → (step T.ops s (commands.Pull at)).1 ≡ replies.Later m → IsNextDue T.ops m (queued_requests s.clients) }
{}

/// A refused command leaves the state.
pub fn refusals_change_nothing<T: Tag>()
    ensures { (s : State T) (command : Command) (refusal : Refusal) → outcome T.ops s command ≡ Err refusal → step T.ops s command ≡ (s, replies.Refused refusal) }
{}

/// Subtracting one tag from two others keeps their order.
pub fn subtraction_keeps_order<T: Tag>()
    ensures { (a b amount x y : T) → T.ops.minus a amount ≡ Some x → T.ops.minus b amount ≡ Some y → T.ops.compare x y ≡ T.ops.compare a b }
{}

/// Adding one tag to two others keeps their order.
pub fn plus_keeps_order<T: Tag>()
    ensures { (a b amount x y : T) → T.ops.plus a amount ≡ Some x → T.ops.plus b amount ≡ Some y → T.ops.compare x y ≡ T.ops.compare a b }
{}

/// The sum of two tags commutes, and there is none in one order exactly if there is none in the other.
pub fn plus_commutes<T: Tag>()
    ensures { (a b : T) → T.ops.plus a b ≡ T.ops.plus b a }
{}

/// An assignment gives no tag below the previous one, and an R exactly if there is a reservation.
pub fn next_tags_follow<T: Tag>()
    ensures { (info : Rates) (spacings : Spacings T) (previous : Previous T) (params : Params) (t floor : T) (tags : Tags T) →
        AreSpacings T.ops info spacings → next_tags T.ops spacings previous params t floor ≡ Ok tags → AreNext T.ops info previous tags }
{}
