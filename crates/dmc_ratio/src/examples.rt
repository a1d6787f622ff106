//! Worked examples on the definitions: each contract holds by computation.
ghost use Rattle.std.specs.Prelude.{◌≡◌, ◌∷◌, [], Some, None};
ghost use Rattle.dmc_types.specs.declared.refusal.Refusal.TheVariants.{Range};
ghost use Rattle.dmc_tag.specs.declared.reply.Reply.TheVariants.{Registered, Updated, Later, Nothing, Removed, Refused};
ghost use Rattle.dmc_tag.specs.Examples.{client, update, add, pull, drop_all, tags, by_reservation, by_priority};
ghost use Rattle.dmc_ratio.specs.Examples.{◌∕◌, replies};

/// Any rate has a ratio spacing, and three thirds are exact.
pub fn exact_thirds()
    ensures { replies 1000
        (client 1 None 3 None 0 ∷ add 1 1 1 0 0 ∷ add 1 2 1 0 0 ∷ add 1 3 1 0 0 ∷ [])
        ≡ (Registered ∷ tags None (0 ∕ 1) (1000 ∕ 3) ∷ tags None (0 ∕ 1) (2000 ∕ 3) ∷ tags None (0 ∕ 1) (1000 ∕ 1) ∷ []) }
{}

/// A future time is the first whole tick that is not before the limit.
pub fn ratio_future()
    ensures { replies 1000
        (client 1 None 1 (Some 3) 0 ∷ add 1 1 1 0 0 ∷ pull 0 ∷ pull 333 ∷ pull 334 ∷ [])
        ≡ (Registered ∷ tags None (1000 ∕ 3) (1000 ∕ 1) ∷ Later 334 ∷ Later 334 ∷ by_priority 1 1 ∷ []) }
{}

/// A sum whose denominator in lowest terms is above 2^32 refuses the request, and changes nothing.
pub fn sum_out_of_range()
    ensures { replies 1
        (client 1 None 65521 None 0 ∷ client 2 None 65519 None 0 ∷ client 3 None 2 None 0 ∷ client 4 None 1 None 0 ∷
        add 1 1 1 0 0 ∷ add 2 1 1 0 0 ∷ add 1 2 1 0 0 ∷ pull 0 ∷ add 3 1 1 0 0 ∷ pull 0 ∷ add 4 1 1 0 0 ∷ pull 0 ∷
        pull 0 ∷ pull 0 ∷ [])
        ≡ (Registered ∷ Registered ∷ Registered ∷ Registered ∷ tags None (0 ∕ 1) (1 ∕ 65521) ∷
        tags None (0 ∕ 1) (1 ∕ 65519) ∷ tags None (0 ∕ 1) (1 ∕ 65521) ∷ by_priority 1 1 ∷ tags None (0 ∕ 1) (1 ∕ 2) ∷
        by_priority 1 2 ∷ Refused Range ∷ by_priority 2 1 ∷ by_priority 3 1 ∷ Nothing ∷ []) }
{}

/// A grant whose reduction is no value is refused.
pub fn reduction_out_of_range()
    ensures { replies 1
        (client 1 (Some 65537) 1 None 0 ∷ add 1 1 1 1 0 ∷ add 1 2 1 1 0 ∷ update 1 (Some 65539) 1 None 0 ∷ pull 0 ∷
        pull 1 ∷ pull 1 ∷ [])
        ≡ (Registered ∷ tags (Some (1 ∕ 65537)) (0 ∕ 1) (1 ∕ 1) ∷ tags (Some (2 ∕ 65537)) (0 ∕ 1) (2 ∕ 1) ∷ Updated ∷
        Refused Range ∷ by_reservation 1 1 ∷ by_reservation 1 2 ∷ []) }
{}

/// A refused pull leaves the last effective moment, so a pull at an earlier moment may follow.
pub fn marks_set_back()
    ensures { replies 1
        (client 1 (Some 65537) 1 None 0 ∷ client 2 None 1 (Some 1) 0 ∷ add 1 1 131075 131075 0 ∷ add 1 2 1 1 0 ∷
        update 1 (Some 65539) 1 None 0 ∷ add 2 1 1 0 0 ∷ pull 1 ∷ drop_all 1 ∷ pull 0 ∷ [])
        ≡ (Registered ∷ Registered ∷ tags (Some (131075 ∕ 65537)) (0 ∕ 1) (131075 ∕ 1) ∷
        tags (Some (131076 ∕ 65537)) (0 ∕ 1) (131076 ∕ 1) ∷ Updated ∷ tags None (1 ∕ 1) (1 ∕ 1) ∷ Refused Range ∷
        Removed 2 ∷ Later 1 ∷ []) }
{}
