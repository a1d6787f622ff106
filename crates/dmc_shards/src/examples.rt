//! The bounds on small lists of calls: each contract holds by computation.
ghost use Rattle.std.specs.Prelude.{◌≡◌, ◌*◌, ◌-◌, ◌∷◌, [], map, take, Some, nat_le, false};
ghost use Rattle.dmc_tag.specs.Replay.{replays};
ghost use Rattle.dmc_tag.specs.Examples.{waiting};
ghost use Rattle.dmc_tick.specs.Tick.{tick_ops};
ghost use Rattle.dmc_history_laws.specs.Bounds.{arrivals, between, given_back, priorities, ticks};
ghost use Rattle.dmc_history_laws.specs.Examples.{first_client, limit_history, limit_span, priority_history, priority_span, taken_back_history, taken_back_span};
ghost use Rattle.dmc_shards.specs.ShardBounds.{stamp_at, came_to, others_between, skipped_between, back_between, AreStamped};
ghost use Rattle.dmc_shards.specs.Examples.{shard, counting, other_shard, other_reserved, with_other, refused_one, with_refused, kept_one, with_kept, skipped_one, with_skipped, out_of_order, later_first};

/// Limit 20: a_2 is granted at 50, and both sides are 1,000, since what came in with a request to shard 1 counts at shard 0.
pub fn other_shards_count()
    ensures replayed { replays tick_ops waiting limit_history }
    ensures stamps { map (stamp_at (shard 0) other_shard) with_other ≡ Some (counting 0) ∷ Some (counting 1) ∷ Some (counting 1) ∷ [] }
    ensures stamped { AreStamped limit_span.k (arrivals first_client limit_history) (shard 0) other_shard with_other }
    ensures came { 1000 * ((came_to other_shard with_other limit_span.k).delta - (came_to other_shard with_other limit_span.i).delta) ≡ 1000 }
    ensures ticks { 20 * ticks tick_ops waiting limit_history limit_span.arrived limit_span.granted limit_span.moment ≡ 1000 }
    ensures others { (others_between (shard 0) other_shard with_other limit_span.i limit_span.k).delta ≡ 0 }
{}

/// Reservation 10: a_2 is granted by weight, and a_3 in the constraint phase at 100. The rhos that came in, also with a request to
/// shard 1, are 2,000; the ticks are 1,000, and what a_2 was granted by weight is 1,000.
pub fn other_shards_count_by_reservation()
    ensures replayed { replays tick_ops waiting priority_history }
    ensures stamped { AreStamped priority_span.k (arrivals first_client priority_history) (shard 0) other_reserved with_other }
    ensures came { 1000 * ((came_to other_reserved with_other priority_span.k).rho - (came_to other_reserved with_other priority_span.i).rho) ≡ 2000 }
    ensures ticks { 10 * ticks tick_ops waiting priority_history priority_span.arrived priority_span.granted priority_span.moment ≡ 1000 }
    ensures by_weight { 1000 * priorities first_client (between priority_span.arrived priority_span.granted priority_history) ≡ 1000 }
    ensures others { (others_between (shard 0) other_reserved with_other priority_span.i priority_span.k).rho ≡ 0 }
{}

/// Limit 20: a_2 is taken back, and a_3 is granted at 50. What came in, also with a request to shard 1, is 2,000; the ticks are 1,000,
/// and what a_2 gave back is 1,000.
pub fn cancels_give_back()
    ensures replayed { replays tick_ops waiting taken_back_history }
    ensures stamped { AreStamped taken_back_span.k (arrivals first_client taken_back_history) (shard 0) other_shard with_other }
    ensures came { 1000 * ((came_to other_shard with_other taken_back_span.k).delta - (came_to other_shard with_other taken_back_span.i).delta) ≡ 2000 }
    ensures ticks { 20 * ticks tick_ops waiting taken_back_history taken_back_span.arrived taken_back_span.granted taken_back_span.moment ≡ 1000 }
    ensures given_back { 1000 * given_back first_client taken_back_span.i taken_back_span.k (take taken_back_span.granted taken_back_history) ≡ 1000 }
    ensures others { (others_between (shard 0) other_shard with_other taken_back_span.i taken_back_span.k).delta ≡ 0 }
{}

/// A request between that shard 0 refuses, and that gives its counts back: a_2 carries them, and both sides are 1,000. If they are
/// not given back, the sides are 2,000 and 1,000: what was not given back is not bounded.
pub fn refused_requests_count_once()
    ensures stamped { AreStamped limit_span.k (arrivals first_client limit_history) (shard 0) refused_one with_refused }
    ensures came { 1000 * ((came_to refused_one with_refused limit_span.k).delta - (came_to refused_one with_refused limit_span.i).delta) ≡ 1000 }
    ensures others { (others_between (shard 0) refused_one with_refused limit_span.i limit_span.k).delta ≡ 1 }
    ensures back { (back_between (shard 0) refused_one with_refused limit_span.i limit_span.k).delta ≡ 1 }
    ensures stamped_kept { AreStamped limit_span.k (arrivals first_client limit_history) (shard 0) kept_one with_kept }
    ensures came_kept { nat_le (1000 * ((came_to kept_one with_kept limit_span.k).delta - (came_to kept_one with_kept limit_span.i).delta)) (20 * ticks tick_ops waiting limit_history limit_span.arrived limit_span.granted limit_span.moment) ≡ false }
    ensures others_kept { (others_between (shard 0) kept_one with_kept limit_span.i limit_span.k).delta ≡ 1 }
    ensures back_kept { (back_between (shard 0) kept_one with_kept limit_span.i limit_span.k).delta ≡ 0 }
{}

/// What came in with a request to shard 1 is skipped at shard 0: a_2's stamp does not count it. What came in is 2,000 and the ticks are
/// 1,000: what was skipped is not bounded.
pub fn skips_are_not_bounded()
    ensures stamped { AreStamped limit_span.k (arrivals first_client limit_history) (shard 0) skipped_one with_skipped }
    ensures came { 1000 * ((came_to skipped_one with_skipped limit_span.k).delta - (came_to skipped_one with_skipped limit_span.i).delta) ≡ 2000 }
    ensures ticks { 20 * ticks tick_ops waiting limit_history limit_span.arrived limit_span.granted limit_span.moment ≡ 1000 }
    ensures skipped { 1000 * (skipped_between (shard 0) skipped_one with_skipped limit_span.i limit_span.k).delta ≡ 1000 }
    ensures others { (others_between (shard 0) skipped_one with_skipped limit_span.i limit_span.k).delta ≡ 0 }
    ensures back { (back_between (shard 0) skipped_one with_skipped limit_span.i limit_span.k).delta ≡ 0 }
{}

/// Two requests arrive at shard 0 in another order than they were stamped in: up to the grant of the one that was stamped last, what
/// the other's stamp counts is not bounded, since the queue does not know of it yet.
pub fn requests_out_of_order()
    ensures stamped { AreStamped limit_span.k (arrivals first_client limit_history) (shard 0) out_of_order later_first }
    ensures came { nat_le (1000 * ((came_to out_of_order later_first limit_span.k).delta - (came_to out_of_order later_first limit_span.i).delta)) (20 * ticks tick_ops waiting limit_history limit_span.arrived limit_span.granted limit_span.moment) ≡ false }
    ensures others { (others_between (shard 0) out_of_order later_first limit_span.i limit_span.k).delta ≡ 1 }
{}
