//! Worked examples on the definitions: each contract holds by computation.
ghost use Rattle.std.specs.Prelude.{◌≡◌, ◌∷◌, [], Some, None, pos};
ghost use Rattle.dmc_types.specs.declared.config.AtLimit.TheVariants.{Wait};
ghost use Rattle.dmc_types.specs.declared.config.Counting.TheVariants.{All, Others};
ghost use Rattle.dmc_types.specs.declared.refusal.Field.TheVariants as fields;
ghost use Rattle.dmc_types.specs.declared.refusal.Refusal.TheVariants.{Known, Unknown, Inexact, Busy, OverLimit};
ghost use Rattle.dmc_tag.specs.declared.reply.Reply.TheVariants.{Registered, Updated, Later, Nothing, Removed, Cleaned, Refused};
ghost use Rattle.dmc_tag.specs.Examples.{add_of_cost, by_reservation_of_cost, by_priority_of_cost, waiting, allowing, rejecting, virtually, virtually_allowing, setting, client, update, add, pull, drop_all, cancel, clean, tags, by_reservation, by_priority, by_priority_beyond};
ghost use Rattle.dmc_tick.specs.Examples.{replies};

/// A request over its limit waits until the limit lets it.
pub fn granted_at_limit()
    ensures { replies waiting
        (client 1 (Some 10) 1 (Some 20) 0 ∷ add 1 7 1 1 0 ∷ pull 0 ∷ pull 50 ∷ pull 50 ∷ [])
        ≡ (Registered ∷ tags (Some (pos 100)) (pos 50) (pos 1000) ∷ Later 50 ∷ by_priority 1 7 ∷ Nothing ∷ []) }
{}

/// Under Reject an add is refused if its request would wait for its limit longer than the threshold. A refused add changes
/// nothing, and comes again later.
pub fn rejected_over_limit()
    ensures { replies (rejecting 50)
        (client 1 None 1 (Some 10) 0 ∷ add 1 11 1 0 0 ∷ add 1 11 1 0 50 ∷ add 1 12 1 0 100 ∷ add 1 12 1 0 150 ∷ pull 150 ∷ pull 199 ∷ [])
        ≡ (Registered ∷ Refused OverLimit ∷ tags None (pos 100) (pos 1000) ∷ Refused OverLimit ∷
        tags None (pos 200) (pos 2000) ∷ by_priority 1 11 ∷ Later 200 ∷ []) }
{}

/// A reservation that is due is granted in the constraint phase.
pub fn granted_by_reservation()
    ensures { replies waiting
        (client 1 (Some 10) 1 None 0 ∷ add 1 9 0 0 0 ∷ pull 0 ∷ [])
        ≡ (Registered ∷ tags (Some (pos 0)) (pos 0) (pos 0) ∷ by_reservation 1 9 ∷ []) }
{}

/// A client is registered once, and before its first request.
pub fn unknown_and_known()
    ensures { replies waiting
        (add 5 1 1 1 0 ∷ client 1 None 1 None 0 ∷ client 1 None 2 None 0 ∷ [])
        ≡ (Refused Unknown ∷ Registered ∷ Refused Known ∷ []) }
{}

/// Of equal tags the one of the least client id is granted.
pub fn tie_by_client()
    ensures { replies waiting
        (client 2 (Some 10) 1 None 0 ∷ client 1 (Some 10) 1 None 0 ∷ add 2 1 1 1 0 ∷ add 1 1 1 1 0 ∷ pull 100 ∷
        pull 100 ∷ [])
        ≡ (Registered ∷ Registered ∷ tags (Some (pos 100)) (pos 0) (pos 1000) ∷
        tags (Some (pos 100)) (pos 0) (pos 1000) ∷ by_reservation 1 1 ∷ by_reservation 2 1 ∷ []) }
{}

/// A Priority grant takes one spacing off the client's other R tags.
pub fn reduced_reservation()
    ensures { replies waiting
        (client 1 (Some 10) 1 None 0 ∷ add 1 1 1 1 0 ∷ add 1 2 1 1 0 ∷ pull 0 ∷ pull 100 ∷ [])
        ≡ (Registered ∷ tags (Some (pos 100)) (pos 0) (pos 1000) ∷ tags (Some (pos 200)) (pos 0) (pos 2000) ∷
        by_priority 1 1 ∷ by_reservation 1 2 ∷ []) }
{}

/// When an idle client comes back, the P of all others are shifted to its moment.
pub fn newcomer_shift()
    ensures { replies waiting
        (client 1 None 1 None 0 ∷ client 2 None 1 None 0 ∷ add 1 11 1 0 0 ∷ add 1 12 1 0 0 ∷ pull 0 ∷
        add 2 21 1 0 500 ∷ pull 500 ∷ [])
        ≡ (Registered ∷ Registered ∷ tags None (pos 0) (pos 1000) ∷ tags None (pos 0) (pos 2000) ∷
        by_priority 1 11 ∷ tags None (pos 500) (pos 1000) ∷ by_priority 1 12 ∷ []) }
{}

/// In ticks a rate has to divide hz.
pub fn inexact_weight()
    ensures { replies waiting
        (client 1 None 3 None 0 ∷ [])
        ≡ (Refused (Inexact fields.Weight) ∷ []) }
{}

/// A moment that goes back counts as the last effective one.
pub fn moment_goes_back()
    ensures { replies waiting
        (client 1 None 1 None 0 ∷ pull 50 ∷ add 1 1 0 0 30 ∷ pull 30 ∷ [])
        ≡ (Registered ∷ Nothing ∷ tags None (pos 50) (pos 50) ∷ by_priority 1 1 ∷ []) }
{}

/// Requests are removed; the previous tags stay.
pub fn dropped_requests()
    ensures { replies waiting
        (client 1 None 1 None 0 ∷ add 1 1 1 0 0 ∷ add 1 2 1 0 0 ∷ drop_all 1 ∷ drop_all 1 ∷ add 1 3 1 0 0 ∷ [])
        ≡ (Registered ∷ tags None (pos 0) (pos 1000) ∷ tags None (pos 0) (pos 2000) ∷ Removed 2 ∷ Removed 0 ∷
        tags None (pos 0) (pos 3000) ∷ []) }
{}

/// A cancelled request gives back to the client's later requests what it was charged, if their stamps counted it: the limits
/// of the requests behind it fall, but none below the moment of its arrival.
pub fn cancelled()
    ensures others { replies waiting
        (client 1 None 1 (Some 10) 0 ∷ add 1 11 1 1 0 ∷ add 1 12 1 1 0 ∷ add 1 13 1 1 0 ∷ add 1 14 1 1 250 ∷
        cancel 1 12 Others ∷ pull 100 ∷ pull 200 ∷ pull 299 ∷ cancel 1 14 Others ∷ add 1 15 1 1 299 ∷ [])
        ≡ (Registered ∷ tags None (pos 100) (pos 1000) ∷ tags None (pos 200) (pos 2000) ∷
        tags None (pos 300) (pos 3000) ∷ tags None (pos 400) (pos 4000) ∷ Removed 1 ∷ by_priority 1 11 ∷
        by_priority 1 13 ∷ Later 300 ∷ Removed 1 ∷ tags None (pos 350) (pos 3000) ∷ []) }
    ensures idle_between { replies waiting
        (client 1 None 1 (Some 10) 0 ∷ add 1 11 1 1 0 ∷ add 1 12 1 1 200 ∷ add 1 13 1 1 200 ∷ cancel 1 12 Others ∷
        cancel 1 11 Others ∷ pull 250 ∷ pull 300 ∷ [])
        ≡ (Registered ∷ tags None (pos 100) (pos 1000) ∷ tags None (pos 200) (pos 2000) ∷
        tags None (pos 300) (pos 3000) ∷ Removed 1 ∷ Removed 1 ∷ Later 300 ∷ by_priority 1 13 ∷ []) }
    ensures all { replies waiting
        (client 1 None 1 (Some 10) 0 ∷ add 1 11 1 1 0 ∷ add 1 12 1 1 0 ∷ add 1 13 1 1 0 ∷ add 1 14 1 1 250 ∷
        cancel 1 12 All ∷ pull 100 ∷ pull 200 ∷ pull 299 ∷ pull 300 ∷ [])
        ≡ (Registered ∷ tags None (pos 100) (pos 1000) ∷ tags None (pos 200) (pos 2000) ∷
        tags None (pos 300) (pos 3000) ∷ tags None (pos 400) (pos 4000) ∷ Removed 1 ∷ by_priority 1 11 ∷
        Later 300 ∷ Later 300 ∷ by_priority 1 13 ∷ []) }
{}

/// A clean marks a client idle, and later erases it.
pub fn idle_then_erased()
    ensures { replies (setting 1000 100 1000 Wait)
        (client 1 None 1 None 0 ∷ clean 100 ∷ add 1 1 0 0 100 ∷ pull 100 ∷ clean 199 ∷ clean 200 ∷ clean 1099 ∷
        clean 1100 ∷ add 1 2 0 0 1100 ∷ [])
        ≡ (Registered ∷ Cleaned 0 0 ∷ tags None (pos 100) (pos 100) ∷ by_priority 1 1 ∷ Cleaned 0 0 ∷ Cleaned 1 0 ∷
        Cleaned 0 0 ∷ Cleaned 0 1 ∷ Refused Unknown ∷ []) }
{}

/// An adjustment may shift up.
pub fn shifted_up()
    ensures { replies waiting
        (client 1 None 1 None 0 ∷ client 2 None 1 None 0 ∷ add 2 21 0 0 0 ∷ add 1 11 0 0 500 ∷ pull 500 ∷ pull 500 ∷ [])
        ≡ (Registered ∷ Registered ∷ tags None (pos 0) (pos 0) ∷ tags None (pos 500) (pos 500) ∷ by_priority 1 11 ∷
        by_priority 2 21 ∷ []) }
{}

/// A previous P tag may be shifted below 0.
pub fn previous_below_zero()
    ensures { replies waiting
        (client 1 None 1 None 0 ∷ client 2 None 1 None 0 ∷ client 3 None 1 None 0 ∷ add 1 1 0 0 0 ∷ pull 0 ∷
        add 2 1 1 0 0 ∷ add 3 1 1 0 0 ∷ add 1 2 1 0 0 ∷ pull 0 ∷ [])
        ≡ (Registered ∷ Registered ∷ Registered ∷ tags None (pos 0) (pos 0) ∷ by_priority 1 1 ∷
        tags None (pos 0) (pos 1000) ∷ tags None (pos 0) (pos 1000) ∷ tags None (pos 0) (pos 0) ∷
        by_priority 1 2 ∷ []) }
{}

/// At limit Allow a request is granted beyond its limit if none is early or free.
pub fn allowed_beyond()
    ensures { replies allowing
        (client 1 (Some 10) 1 (Some 20) 0 ∷ add 1 1 1 1 0 ∷ add 1 2 1 1 0 ∷ pull 0 ∷ pull 100 ∷ pull 100 ∷ [])
        ≡ (Registered ∷ tags (Some (pos 100)) (pos 50) (pos 1000) ∷ tags (Some (pos 200)) (pos 100) (pos 2000) ∷
        by_priority_beyond 1 1 ∷ by_reservation 1 2 ∷ Nothing ∷ []) }
{}

/// An update changes the rates of later requests. It is refused if it gives or takes a reservation while a request is queued.
pub fn updates()
    ensures { replies waiting
        (client 1 None 1 None 0 ∷ add 1 1 1 0 0 ∷ update 1 None 2 None 0 ∷ add 1 2 1 0 0 ∷
        update 1 (Some 10) 2 None 0 ∷ drop_all 1 ∷ update 1 (Some 10) 2 None 0 ∷ add 1 3 1 1 0 ∷
        update 1 None 3 None 0 ∷ update 2 None 1 None 0 ∷ [])
        ≡ (Registered ∷ tags None (pos 0) (pos 1000) ∷ Updated ∷ tags None (pos 0) (pos 1500) ∷ Refused Busy ∷
        Removed 2 ∷ Updated ∷ tags (Some (pos 100)) (pos 0) (pos 2000) ∷ Refused (Inexact fields.Weight) ∷
        Refused Unknown ∷ []) }
{}

/// By the clock, a client that found nothing queued is granted until it has caught up with what the other got before it came.
pub fn newcomer_clock()
    ensures { replies waiting
        (client 1 None 1 None 0 ∷ client 2 None 1 None 0 ∷ add 1 11 1 1 0 ∷ add 1 12 1 1 0 ∷ pull 0 ∷ pull 0 ∷
        add 2 21 1 1 0 ∷ add 1 13 1 1 0 ∷ add 2 22 1 1 0 ∷ pull 0 ∷ pull 0 ∷ pull 0 ∷ [])
        ≡ (Registered ∷ Registered ∷ tags None (pos 0) (pos 1000) ∷ tags None (pos 0) (pos 2000) ∷ by_priority 1 11 ∷
        by_priority 1 12 ∷ tags None (pos 0) (pos 1000) ∷ tags None (pos 0) (pos 3000) ∷ tags None (pos 0) (pos 2000) ∷
        by_priority 2 21 ∷ by_priority 2 22 ∷ by_priority 1 13 ∷ []) }
{}

/// In virtual time, a client that comes starts where the others are: both are granted in turn at once.
pub fn newcomer_virtual()
    ensures { replies virtually
        (client 1 None 1 None 0 ∷ client 2 None 1 None 0 ∷ add 1 11 1 1 0 ∷ add 1 12 1 1 0 ∷ pull 0 ∷ pull 0 ∷
        add 2 21 1 1 0 ∷ add 1 13 1 1 0 ∷ add 2 22 1 1 0 ∷ pull 0 ∷ pull 0 ∷ [])
        ≡ (Registered ∷ Registered ∷ tags None (pos 0) (pos 1000) ∷ tags None (pos 0) (pos 2000) ∷ by_priority 1 11 ∷
        by_priority 1 12 ∷ tags None (pos 0) (pos 2000) ∷ tags None (pos 0) (pos 3000) ∷ tags None (pos 0) (pos 3000) ∷
        by_priority 2 21 ∷ by_priority 1 13 ∷ []) }
{}

/// A client that paused comes back where the others are, however long it was away: it has no credit.
pub fn pause_virtual()
    ensures { replies virtually
        (client 1 None 1 None 0 ∷ client 2 None 1 None 0 ∷ add 1 11 1 1 0 ∷ add 2 21 1 1 0 ∷ add 1 12 1 1 0 ∷
        add 1 13 1 1 0 ∷ pull 0 ∷ pull 0 ∷ pull 0 ∷ add 2 22 0 0 9000 ∷ add 2 23 1 1 9000 ∷ pull 9000 ∷ pull 9000 ∷
        pull 9000 ∷ [])
        ≡ (Registered ∷ Registered ∷ tags None (pos 0) (pos 1000) ∷ tags None (pos 0) (pos 1000) ∷
        tags None (pos 0) (pos 2000) ∷ tags None (pos 0) (pos 3000) ∷ by_priority 1 11 ∷ by_priority 2 21 ∷
        by_priority 1 12 ∷ tags None (pos 9000) (pos 2000) ∷ tags None (pos 9000) (pos 3000) ∷ by_priority 2 22 ∷
        by_priority 1 13 ∷ by_priority 2 23 ∷ []) }
{}

/// A request that finds nothing queued starts at the furthest P, also if that request left without a grant by weight: here 11 went
/// by reservation, and 12 was removed.
pub fn furthest_virtual()
    ensures { replies virtually
        (client 1 (Some 10) 1 None 0 ∷ client 2 None 1 None 0 ∷ add 1 11 1 0 0 ∷ add 1 12 1 1 0 ∷ pull 0 ∷ drop_all 1 ∷
        add 2 21 0 0 0 ∷ [])
        ≡ (Registered ∷ Registered ∷ tags (Some (pos 0)) (pos 0) (pos 1000) ∷ tags (Some (pos 100)) (pos 0) (pos 2000) ∷
        by_reservation 1 11 ∷ Removed 1 ∷ tags None (pos 0) (pos 2000) ∷ []) }
{}

/// A Reservation grant leaves the virtual time.
pub fn reservation_virtual()
    ensures { replies virtually
        (client 1 (Some 10) 1 None 0 ∷ client 2 None 1 None 0 ∷ add 1 11 5 0 0 ∷ add 1 12 1 1 0 ∷ pull 0 ∷ add 2 21 0 0 0 ∷ [])
        ≡ (Registered ∷ Registered ∷ tags (Some (pos 0)) (pos 0) (pos 5000) ∷ tags (Some (pos 100)) (pos 0) (pos 6000) ∷
        by_reservation 1 11 ∷ tags None (pos 0) (pos 0) ∷ []) }
{}

/// A grant beyond the limit counts as any other grant by weight.
pub fn beyond_virtual()
    ensures { replies virtually_allowing
        (client 1 None 1 (Some 10) 0 ∷ client 2 None 1 None 0 ∷ add 1 11 1 1 0 ∷ add 1 12 1 1 0 ∷ pull 0 ∷ add 2 21 0 0 0 ∷ [])
        ≡ (Registered ∷ Registered ∷ tags None (pos 100) (pos 1000) ∷ tags None (pos 200) (pos 2000) ∷
        by_priority_beyond 1 11 ∷ tags None (pos 0) (pos 1000) ∷ []) }
{}

/// The cost of a request comes back in the reply of its grant. It enters the tags by the counts of the next stamp alone: 12 takes
/// four spacings, for the 4 of 11.
pub fn cost_returned()
    ensures { replies waiting
        (client 1 (Some 100) 1 None 0 ∷ client 2 None 1 None 0 ∷ add_of_cost 4 1 11 0 0 0 ∷ add_of_cost 4 1 12 4 0 0 ∷
        add 2 21 0 0 0 ∷ pull 0 ∷ pull 0 ∷ pull 0 ∷ [])
        ≡ (Registered ∷ Registered ∷ tags (Some (pos 0)) (pos 0) (pos 0) ∷ tags (Some (pos 0)) (pos 0) (pos 4000) ∷
        tags None (pos 0) (pos 0) ∷ by_reservation_of_cost 4 1 11 ∷ by_reservation_of_cost 4 1 12 ∷ by_priority 2 21 ∷ []) }
{}

/// A grant by weight takes a spacing for each unit of its cost off the R tags of its client: 400 for the 4 of 12, so that 13 is due
/// at 800, and not yet at 799.
pub fn cost_reduces()
    ensures by_weight { replies waiting
        (client 1 (Some 10) 1 None 0 ∷ add 1 11 0 0 0 ∷ add_of_cost 4 1 12 8 8 0 ∷ add 1 13 4 4 0 ∷ pull 0 ∷ pull 0 ∷
        pull 799 ∷ [])
        ≡ (Registered ∷ tags (Some (pos 0)) (pos 0) (pos 0) ∷ tags (Some (pos 800)) (pos 0) (pos 8000) ∷
        tags (Some (pos 1200)) (pos 0) (pos 12000) ∷ by_reservation 1 11 ∷ by_priority_of_cost 4 1 12 ∷ by_priority 1 13 ∷ []) }
    ensures by_reservation { replies waiting
        (client 1 (Some 10) 1 None 0 ∷ add 1 11 0 0 0 ∷ add_of_cost 4 1 12 8 8 0 ∷ add 1 13 4 4 0 ∷ pull 0 ∷ pull 0 ∷
        pull 800 ∷ [])
        ≡ (Registered ∷ tags (Some (pos 0)) (pos 0) (pos 0) ∷ tags (Some (pos 800)) (pos 0) (pos 8000) ∷
        tags (Some (pos 1200)) (pos 0) (pos 12000) ∷ by_reservation 1 11 ∷ by_priority_of_cost 4 1 12 ∷ by_reservation 1 13 ∷ []) }
{}
