//! The laws on small histories: each contract holds by computation.
ghost use Rattle.std.specs.Prelude.{◌≡◌, ◌+◌, ◌*◌, ◌++◌, ◌∷◌, [], drop, map, take, nat_le, false, true, pos};
ghost use Rattle.std.specs.Ordering.{is_gt};
ghost use Rattle.dmc_types.specs.declared.config.Counting.TheVariants.{Others};
ghost use Rattle.dmc_tag.specs.Replay.{after, replays};
ghost use Rattle.dmc_tag.specs.State.{requests_of};
ghost use Rattle.dmc_tag.specs.Order.{AtMost};
ghost use Rattle.dmc_tag.specs.Examples.{waiting, allowing, virtually};
ghost use Rattle.dmc_tag.specs.Tag.{whole};
ghost use Rattle.dmc_tick.specs.Tick.{tick_ops, tick_fraction};
ghost use Rattle.dmc_history_laws.specs.Bounds.{arrivals, asked_at, asked_by, between, departures, given_back, priorities, sum_of, ticks, waiting as those_waiting};
ghost use Rattle.dmc_history_laws.specs.Shares.{first_queued, last_arrived, spaced_after};
ghost use Rattle.dmc_history_laws.specs.Examples.{first_client, limited, waits, limit_history, limit_span, taken_back, taken_back_history, taken_back_reservation, taken_back_span, uncharged_history, beyond_history, reservation_history, priority_history, priority_span, both_history, reserved, second_of_cost_4, asked, cost_history, cost_span, request, shared, credit_history, clock_credit_history, second_client, competing, competing_still, debt_history, held_back_history, taken_back_debt};

/// Up to a grant at the limit both sides are 1,000. Under `Allow` the grant at 0 is beyond the limit: there the sides are 1,000
/// and 0, and the law says nothing of such grants.
pub fn limit_bound()
    ensures replayed { replays tick_ops waiting limit_history }
    ensures sum { 1000 * sum_of (λ p. p.delta) limit_span.i limit_span.k (arrivals first_client limit_history) ≡ 1000 }
    ensures ticks { 20 * ticks tick_ops waiting limit_history limit_span.arrived limit_span.granted limit_span.moment ≡ 1000 }
    ensures replayed_beyond { replays tick_ops allowing beyond_history }
    ensures beyond { nat_le (1000 * sum_of (λ p. p.delta) 1 2 (arrivals first_client beyond_history)) (20 * ticks tick_ops allowing beyond_history 1 5 0) ≡ false }
{}

/// Up to a grant by the reservation both sides are 1,000. If a request was granted by weight between, within the limit or
/// beyond, it counts against the rhos: both sides are 2,000.
pub fn reservation_bound()
    ensures replayed { replays tick_ops waiting reservation_history }
    ensures sum { 1000 * sum_of (λ p. p.rho) 1 2 (arrivals first_client reservation_history) ≡ 1000 }
    ensures ticks { 10 * ticks tick_ops waiting reservation_history 1 4 100 + 1000 * priorities first_client (between 1 4 reservation_history) ≡ 1000 }
    ensures replayed_priority { replays tick_ops waiting priority_history }
    ensures sum_priority { 1000 * sum_of (λ p. p.rho) priority_span.i priority_span.k (arrivals first_client priority_history) ≡ 2000 }
    ensures ticks_priority { 10 * ticks tick_ops waiting priority_history priority_span.arrived priority_span.granted priority_span.moment + 1000 * priorities first_client (between priority_span.arrived priority_span.granted priority_history) ≡ 2000 }
    ensures replayed_beyond { replays tick_ops allowing both_history }
    ensures sum_beyond { 1000 * sum_of (λ p. p.rho) 1 3 (arrivals first_client both_history) ≡ 2000 }
    ensures ticks_beyond { 10 * ticks tick_ops allowing both_history 1 6 100 + 1000 * priorities first_client (between 1 6 both_history) ≡ 2000 }
{}

/// A request of cost 4 that was granted by weight between counts 4 against the rhos: both sides are 12,000.
pub fn reservation_bound_with_costs()
    ensures replayed { replays tick_ops waiting cost_history }
    ensures sum { 1000 * sum_of (λ p. p.rho) cost_span.i cost_span.k (arrivals first_client cost_history) ≡ 12000 }
    ensures ticks { 10 * ticks tick_ops waiting cost_history cost_span.arrived cost_span.granted cost_span.moment + 1000 * priorities first_client (between cost_span.arrived cost_span.granted cost_history) ≡ 12000 }
{}

/// After the first request was granted, the second and the third are queued. Before a grant all three are, each with its cost.
pub fn in_order_of_arrival()
    ensures queued { map (λ r. r.token) (requests_of first_client (after tick_ops waiting (limited ++ waits)).clients) ≡ record { 0 = 2 } ∷ record { 0 = 3 } ∷ [] }
    ensures with_costs { map asked_by (requests_of first_client (after tick_ops waiting (reserved ++ second_of_cost_4)).clients) ≡ asked 1 1 ∷ asked 2 4 ∷ asked 3 1 ∷ [] }
{}

/// After a_1 was granted, a_2 is taken back: a_3 waits, under its number, and after its grant none does. It is granted at 50, since
/// what a_2 was charged was given back, and at 100 if a_2 was charged nothing. By departures alone a_2 would be next: the laws that
/// number arrivals by them say nothing of such a client.
pub fn in_order_with_cancels()
    ensures replayed { replays tick_ops waiting taken_back_history }
    ensures waits { map (λ n. n.number) (those_waiting first_client (taken_back Others)) ≡ 3 ∷ [] }
    ensures queued { map asked_by (requests_of first_client (after tick_ops waiting (taken_back Others)).clients) ≡ asked 3 1 ∷ [] }
    ensures none_waits { those_waiting first_client taken_back_history ≡ [] }
    ensures replayed_uncharged { replays tick_ops waiting uncharged_history }
    ensures not_second { drop (departures first_client (taken_back Others)) (map asked_at (arrivals first_client (taken_back Others))) ≡ asked 2 1 ∷ asked 3 1 ∷ [] }
{}

/// From a_1 to a_3, of which a_2 was taken back: the deltas are 2,000, and the ticks up to the grant at 50 are 1,000, and what a_2
/// gave back 1,000. In the form All nothing is given back, and the ticks up to the grant at 100 are 2,000.
pub fn limit_bound_with_cancels()
    ensures replayed { replays tick_ops waiting taken_back_history }
    ensures sum { 1000 * sum_of (λ p. p.delta) taken_back_span.i taken_back_span.k (arrivals first_client taken_back_history) ≡ 2000 }
    ensures ticks { 20 * ticks tick_ops waiting taken_back_history taken_back_span.arrived taken_back_span.granted taken_back_span.moment ≡ 1000 }
    ensures given_back { 1000 * given_back first_client taken_back_span.i taken_back_span.k (take taken_back_span.granted taken_back_history) ≡ 1000 }
    ensures none_in_front { given_back first_client 1 2 (take 6 taken_back_history) ≡ 0 }
    ensures replayed_uncharged { replays tick_ops waiting uncharged_history }
    ensures ticks_uncharged { 20 * ticks tick_ops waiting uncharged_history 1 7 100 ≡ 2000 }
    ensures none_uncharged { given_back first_client 1 3 (take 7 uncharged_history) ≡ 0 }
{}

/// From a_1 to a_3, of which a_2 was taken back: the rhos are 2,000, the ticks up to the grant at 100 are 1,000, and what a_2 gave back
/// 1,000.
pub fn reservation_bound_with_cancels()
    ensures replayed { replays tick_ops waiting taken_back_reservation }
    ensures sum { 1000 * sum_of (λ p. p.rho) 1 3 (arrivals first_client taken_back_reservation) ≡ 2000 }
    ensures ticks { 10 * ticks tick_ops waiting taken_back_reservation 1 6 100 + 1000 * priorities first_client (between 1 6 taken_back_reservation) ≡ 1000 }
    ensures given_back { 1000 * given_back first_client 1 3 (take 6 taken_back_reservation) ≡ 1000 }
{}

/// A request was granted by weight at 1,000, and the next one has P 1,000, though it is the first of its client and has delta 0. By
/// the clock its P is 0: the client has a credit.
pub fn no_credit()
    ensures replayed { replays tick_ops virtually credit_history }
    ensures not_below { AtMost tick_ops (request 11 (pos 1000) (pos 1000)).tags.p (shared (pos 1000)).p }
    ensures replayed_clock { replays tick_ops waiting clock_credit_history }
    ensures below { is_gt (tick_ops.compare (pos 1000) (shared (pos 0)).p) ≡ true }
{}

/// Client 2 joins at event 5, and both sides are 3,000: client 1's a_2 has P 2,000 and its a_3 delta 1, client 2's a_1 has P 1,000
/// and its a_2 and a_3 have delta 1. If a limit holds client 2 back, the sides are 2,000 and 1,000: the law says nothing of that.
pub fn no_debt()
    ensures replayed { replays tick_ops virtually debt_history }
    ensures ahead { spaced_after 1000 1 (sum_of (λ p. p.delta) (first_queued first_client competing.first debt_history) (first_queued first_client competing.last debt_history) (arrivals first_client debt_history)) (tick_fraction competing.x.tags.p) ≡ whole 3000 }
    ensures behind { spaced_after 1000 1 (sum_of (λ p. p.delta) (last_arrived second_client competing.joined debt_history) (first_queued second_client competing.last debt_history) (arrivals second_client debt_history)) (tick_fraction competing.h.p) ≡ whole 3000 }
    ensures replayed_back { replays tick_ops virtually held_back_history }
    ensures ahead_back { spaced_after 1000 1 (sum_of (λ p. p.delta) (first_queued first_client 5 held_back_history) (first_queued first_client 6 held_back_history) (arrivals first_client held_back_history)) (tick_fraction (pos 1000)) ≡ whole 2000 }
    ensures behind_back { spaced_after 1000 1 (sum_of (λ p. p.delta) (last_arrived second_client 2 held_back_history) (first_queued second_client 6 held_back_history) (arrivals second_client held_back_history)) (tick_fraction (pos 1000)) ≡ whole 1000 }
{}

/// Client 1's a_3 is taken back between the grants of a_2 and a_4. Both sides are 4,000: a_2 has P 2,000, and a_3 and a_4 have delta
/// 1; client 2's a_1 has P 1,000, its a_2 and a_3 have delta 1, and what a_3 of client 1 gave back counts.
pub fn no_debt_with_cancels()
    ensures replayed { replays tick_ops virtually taken_back_debt }
    ensures granted { map (λ n. n.number) (those_waiting first_client (take competing_still.last taken_back_debt)) ≡ 4 ∷ [] }
    ensures first_of_other { map (λ n. n.number) (those_waiting second_client (take competing_still.last taken_back_debt)) ≡ 3 ∷ [] }
    ensures ahead { spaced_after 1000 1 (sum_of (λ p. p.delta) (last_arrived first_client competing_still.came taken_back_debt) 4 (arrivals first_client taken_back_debt)) (tick_fraction competing_still.x.tags.p) ≡ whole 4000 }
    ensures given_back { given_back first_client (last_arrived first_client competing_still.came taken_back_debt) 4 (take competing_still.last taken_back_debt) ≡ 1 }
    ensures behind { spaced_after 1000 1 1 (spaced_after 1000 1 (sum_of (λ p. p.delta) (last_arrived second_client competing_still.joined taken_back_debt) 3 (arrivals second_client taken_back_debt)) (tick_fraction competing_still.h.p)) ≡ whole 4000 }
{}
