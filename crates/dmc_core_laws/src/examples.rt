//! The laws on small runs: each contract holds by computation.
ghost use Rattle.std.specs.Prelude.{◌≡◌, ◌+◌, ◌*◌, ◌∷◌, [], Some, None, Ok, map, nat_le, take, false};
ghost use Rattle.dmc_types.specs.declared.config.Counting.TheVariants.{All, Others};
ghost use Rattle.dmc_history_laws.specs.Bounds.{arrivals, between, given_back, priorities, sum_of, ticks, waiting as those_waiting};
ghost use Rattle.dmc_history_laws.specs.Examples.{first_client};
ghost use Rattle.dmc_core.specs.declared.event.CoreReply.TheVariants.{Served};
ghost use Rattle.dmc_tag.specs.Examples.{waiting, allowing, by_reservation, by_priority, by_priority_beyond};
ghost use Rattle.dmc_tag.specs.declared.reply.Reply.TheVariants.{Later, Removed};
ghost use Rattle.dmc_tick.specs.Tick.{tick_ops};
ghost use Rattle.dmc_core_laws.specs.Bounds.{allowed, counted};
ghost use Rattle.dmc_core_laws.specs.Examples.{only_server, scene_in, scene_of, limit_events, beyond_events, cost_events, reservation_events, taken_back_events, uncharged_events, history_after, list_after, reply_at};

/// Limit 20: a_2 is granted at 50, and both sides are 1,000. Under `Allow` it is granted at 0, beyond the limit: there the sides
/// are 1,000 and 0, and the law says nothing of such grants.
pub fn limit_bound()
    ensures granted { reply_at (scene_of waiting None (Some 20)) 7 limit_events ≡ Some (Ok (Served (by_priority 1 2))) }
    ensures completions { 1000 * counted All only_server (list_after (scene_of waiting None (Some 20)) limit_events) 1 2 (arrivals first_client (history_after (scene_of waiting None (Some 20)) limit_events)) ≡ 1000 }
    ensures ticks { 20 * ticks tick_ops waiting (history_after (scene_of waiting None (Some 20)) limit_events) 1 5 50 ≡ 1000 }
    ensures granted_beyond { reply_at (scene_of allowing None (Some 20)) 6 beyond_events ≡ Some (Ok (Served (by_priority_beyond 1 2))) }
    ensures beyond { nat_le (1000 * counted All only_server (list_after (scene_of allowing None (Some 20)) beyond_events) 1 2 (arrivals first_client (history_after (scene_of allowing None (Some 20)) beyond_events))) (20 * ticks tick_ops allowing (history_after (scene_of allowing None (Some 20)) beyond_events) 1 4 0) ≡ false }
{}

/// Limit 20, and a_1 costs 3: a_2 is granted at 150, and both sides are 3,000.
pub fn cost_bound()
    ensures granted { reply_at (scene_of waiting None (Some 20)) 6 cost_events ≡ Some (Ok (Served (by_priority 1 2))) }
    ensures completions { 1000 * counted All only_server (list_after (scene_of waiting None (Some 20)) cost_events) 1 2 (arrivals first_client (history_after (scene_of waiting None (Some 20)) cost_events)) ≡ 3000 }
    ensures ticks { 20 * ticks tick_ops waiting (history_after (scene_of waiting None (Some 20)) cost_events) 1 4 150 ≡ 3000 }
{}

/// Reservation 10: a_2 is granted at 100, and both sides are 1,000.
pub fn reservation_bound()
    ensures granted { reply_at (scene_of waiting (Some 10) None) 6 reservation_events ≡ Some (Ok (Served (by_reservation 1 2))) }
    ensures rhos { 1000 * sum_of (λ p. p.rho) 1 2 (arrivals first_client (history_after (scene_of waiting (Some 10) None) reservation_events)) ≡ 1000 }
    ensures ticks { 10 * ticks tick_ops waiting (history_after (scene_of waiting (Some 10) None) reservation_events) 1 4 100 + 1000 * priorities first_client (between 1 4 (history_after (scene_of waiting (Some 10) None) reservation_events)) ≡ 1000 }
{}

/// Limit 10, in the form Others: of three that arrive at 100 the second is taken back, and a_3 is granted at 200. The deltas of a_2 and
/// a_3 are 2,000; the ticks are 1,000, and what a_2 gave back is 1,000.
pub fn limit_bound_with_cancels()
    ensures taken_back { reply_at (scene_in Others waiting None (Some 10)) 6 taken_back_events ≡ Some (Ok (Served (Removed 1))) }
    ensures first { reply_at (scene_in Others waiting None (Some 10)) 7 taken_back_events ≡ Some (Ok (Served (by_priority 1 1))) }
    ensures not_yet { reply_at (scene_in Others waiting None (Some 10)) 8 taken_back_events ≡ Some (Ok (Served (Later 200))) }
    ensures granted { reply_at (scene_in Others waiting None (Some 10)) 9 taken_back_events ≡ Some (Ok (Served (by_priority 1 3))) }
    ensures waits { map (λ n. n.number) (those_waiting first_client (take 7 (history_after (scene_in Others waiting None (Some 10)) taken_back_events))) ≡ 3 ∷ [] }
    ensures deltas { 1000 * counted Others only_server (list_after (scene_in Others waiting None (Some 10)) taken_back_events) 1 3 (arrivals first_client (history_after (scene_in Others waiting None (Some 10)) taken_back_events)) ≡ 2000 }
    ensures ticks { 10 * ticks tick_ops waiting (history_after (scene_in Others waiting None (Some 10)) taken_back_events) 1 7 200 ≡ 1000 }
    ensures allowed { allowed Others 1000 1000 (given_back first_client 1 3 (take 7 (history_after (scene_in Others waiting None (Some 10)) taken_back_events))) ≡ 2000 }
{}

/// Limit 20, in the form All: a_2 is taken back, and the completion that its delta counts is not given back. a_3 is granted at 50, and
/// both sides are 1,000.
pub fn limit_bound_with_cancels_in_all()
    ensures taken_back { reply_at (scene_of waiting None (Some 20)) 8 uncharged_events ≡ Some (Ok (Served (Removed 1))) }
    ensures not_yet { reply_at (scene_of waiting None (Some 20)) 9 uncharged_events ≡ Some (Ok (Served (Later 50))) }
    ensures granted { reply_at (scene_of waiting None (Some 20)) 10 uncharged_events ≡ Some (Ok (Served (by_priority 1 3))) }
    ensures completions { 1000 * counted All only_server (list_after (scene_of waiting None (Some 20)) uncharged_events) 1 3 (arrivals first_client (history_after (scene_of waiting None (Some 20)) uncharged_events)) ≡ 1000 }
    ensures ticks { 20 * ticks tick_ops waiting (history_after (scene_of waiting None (Some 20)) uncharged_events) 1 7 50 ≡ 1000 }
    ensures none_given_back { given_back first_client 1 3 (take 7 (history_after (scene_of waiting None (Some 20)) uncharged_events)) ≡ 0 }
{}
