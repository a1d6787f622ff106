//! Worked examples on the definitions: each contract holds by computation.
ghost use Rattle.std.specs.Prelude.{◌≡◌, ◌∷◌, [], true, false, codes, pos, negsuc, Some, None, Ok, Err};
ghost use Rattle.dmc_types.specs.Limits.{max_moment};
ghost use Rattle.dmc_types.specs.declared.config.AtLimit.TheVariants.{Wait, Allow, Reject};
ghost use Rattle.dmc_types.specs.declared.config.Counting.TheVariants.{All, Others};
ghost use Rattle.dmc_types.specs.declared.config.Shares.TheVariants.{Clock, Virtual};
ghost use Rattle.dmc_types.specs.declared.config.PhaseType.TheVariants.{Reservation, Priority};
ghost use Rattle.dmc_types.specs.declared.refusal.ValueFault.TheVariants as faults;
ghost use Rattle.dmc_types.specs.declared.command.Command.TheVariants.{Add, Pull, Register, Remove, Cancel};
ghost use Rattle.dmc_tick.specs.Tick.{tick_ops};
ghost use Rattle.dmc_tag.specs.declared.reply.Reply.TheVariants.{Tagged, Granted, Later};
ghost use Rattle.dmc_text.specs.declared.cause.LineCause.TheVariants as causes;
ghost use Rattle.dmc_text.specs.declared.line.Line.TheVariants.{Skip, Config, Ask, Value};
ghost use Rattle.dmc_text.specs.Words.{words};
ghost use Rattle.dmc_text.specs.Numbers.{number};
ghost use Rattle.dmc_text.specs.Tags.{fraction_of, fraction_text};
ghost use Rattle.dmc_text.specs.Lines.{line_of};
ghost use Rattle.dmc_text.specs.EventLines.{header_of};
ghost use Rattle.dmc_text.specs.Replies.{reply_text, reply_of, in_ticks};
ghost use Rattle.dmc_text.specs.RatioText.{ratio_if_lowest};
ghost use Rattle.dmc_text.specs.Texts.{text_of, out};
ghost use Rattle.dmc_text.specs.Written.{command_text, config_text, event_text, header_text};

/// Words are separated by one or more spaces, and spaces at either end are ignored.
pub fn words_of_a_line()
    ensures { words (codes "  drop   1 ") ≡ codes "drop" ∷ codes "1" ∷ [] }
{}

/// A number has no leading 0, and fits its type.
pub fn numbers_of_words()
    ensures zero { number 10 (codes "0") ≡ Some 0 }
    ensures digits { number 1000 (codes "105") ≡ Some 105 }
    ensures led { number 1000 (codes "01") ≡ None }
    ensures fits { number 100 (codes "100") ≡ None }
    ensures sign { number 100 (codes "+1") ≡ None }
    ensures empty { number 100 [] ≡ None }
{}

/// A tag is a whole number or a fraction, with no `-0` and no `/1`.
#[tactic(auto, unfolding(crate::specs::Tags::fraction_of, crate::specs::Tags::signed))]
pub fn tags_of_words()
    ensures whole { fraction_of (codes "1000") ≡ Some (pos 1000, 1) }
    ensures below { fraction_of (codes "-1000/3") ≡ Some (negsuc 999, 3) }
    ensures no_zero { fraction_of (codes "-0") ≡ None }
    ensures no_one { fraction_of (codes "5/1") ≡ None }
{}

/// The order of the causes.
#[tactic(auto, unfolding(crate::specs::Lines::is_clean, crate::specs::Lines::line_of_words, crate::specs::Lines::heading, crate::specs::Lines::setting, crate::specs::Lines::figure, crate::specs::Lines::configured, crate::specs::Commands::phrase, crate::specs::Commands::command, crate::specs::Commands::small, crate::specs::Commands::long, crate::specs::Commands::optional, crate::specs::Commands::moment, crate::specs::Commands::params, crate::specs::Commands::cost_word, crate::specs::Commands::cost, crate::specs::Commands::rates))]
pub fn lines_of_a_script()
    ensures comment { line_of true (codes "# pull") ≡ Ok Skip }
    ensures bytes { line_of true (13 ∷ codes "hz") ≡ Err causes.Bytes }
    ensures first { line_of false (codes "pull 0") ≡ Err causes.Hz }
    ensures later { line_of true (codes "hz 1 2") ≡ Err causes.Hz }
    ensures missing { line_of true (codes "drop") ≡ Err causes.Words }
    ensures unknown { line_of true (codes "push 01") ≡ Err causes.Words }
    ensures number { line_of true (codes "pull 01") ≡ Err causes.Number }
    ensures limit { line_of false (codes "hz 0") ≡ Err causes.Hz }
    ensures moment { line_of true (codes "add 1 1 1 2 4611686018427387905") ≡ Ok (Value faults.Moment) }
    ensures params { line_of true (codes "add 1 1 1 2 0") ≡ Ok (Value faults.Params) }
    ensures rate { line_of true (codes "client 2 0 1 - 0") ≡ Ok (Value faults.Rate) }
    ensures no_cost { line_of true (codes "add 1 1 1 1 0 cost") ≡ Err causes.Words }
    ensures other_word { line_of true (codes "add 1 1 1 1 0 price 2") ≡ Err causes.Words }
    ensures behind_cost { line_of true (codes "add 1 1 1 1 0 cost 2 cost") ≡ Err causes.Words }
    ensures cost_number { line_of true (codes "add 1 1 1 2 0 cost 02") ≡ Err causes.Number }
    ensures cost { line_of true (codes "add 1 1 1 1 0 cost 0") ≡ Ok (Value faults.Cost) }
    ensures pull { line_of true (codes "pull 50") ≡ Ok (Ask (Pull 50)) }
    ensures dropped { line_of true (codes "drop 7") ≡ Ok (Ask (Remove (record { 0 = 7 }))) }
    ensures cancelled { line_of true (codes "cancel 7 9 others") ≡ Ok (Ask (Cancel (record { 0 = 7 }) (record { 0 = 9 }) Others)) }
    ensures not_counted { line_of true (codes "cancel 7 9 all") ≡ Ok (Ask (Cancel (record { 0 = 7 }) (record { 0 = 9 }) All)) }
    ensures no_counting { line_of true (codes "cancel 7 9") ≡ Err causes.Words }
    ensures other_counting { line_of true (codes "cancel 07 9 none") ≡ Err causes.Words }
    ensures cancel_number { line_of true (codes "cancel 7 09 all") ≡ Err causes.Number }
    ensures behind_counting { line_of true (codes "cancel 7 9 all others") ≡ Err causes.Words }
    ensures allow { line_of false (codes "hz 1000 1 2 allow") ≡ Ok (Config (record { hz = 1000; idle_age = 1; erase_age = 2; at_limit = Allow; shares = Clock })) }
    ensures virtual_time { line_of false (codes "hz 1000 1 2 virtual") ≡ Ok (Config (record { hz = 1000; idle_age = 1; erase_age = 2; at_limit = Wait; shares = Virtual })) }
    ensures both { line_of false (codes "hz 1000 1 2 allow virtual") ≡ Ok (Config (record { hz = 1000; idle_age = 1; erase_age = 2; at_limit = Allow; shares = Virtual })) }
    ensures no_ages { line_of false (codes "hz 1000 allow virtual") ≡ Ok (Config (record { hz = 1000; idle_age = max_moment; erase_age = max_moment; at_limit = Allow; shares = Virtual })) }
    ensures no_limit { line_of false (codes "hz 1000 virtual") ≡ Ok (Config (record { hz = 1000; idle_age = max_moment; erase_age = max_moment; at_limit = Wait; shares = Virtual })) }
    ensures virtual_first { line_of false (codes "hz 1000 virtual allow") ≡ Err causes.Number }
    ensures one_age { line_of false (codes "hz 1000 5 virtual") ≡ Err causes.Words }
    ensures one_age_allow { line_of false (codes "hz 1000 5 allow") ≡ Err causes.Number }
    ensures reject { line_of false (codes "hz 1000 1 2 reject 50") ≡ Ok (Config (record { hz = 1000; idle_age = 1; erase_age = 2; at_limit = Reject 50; shares = Clock })) }
    ensures reject_no_ages { line_of false (codes "hz 1000 reject 50 virtual") ≡ Ok (Config (record { hz = 1000; idle_age = max_moment; erase_age = max_moment; at_limit = Reject 50; shares = Virtual })) }
    ensures reject_nothing { line_of false (codes "hz 1000 reject") ≡ Err causes.Words }
    ensures reject_no_number { line_of false (codes "hz 1000 reject -1") ≡ Err causes.Number }
    ensures reject_past_limit { line_of false (codes "hz 1000 reject 4611686018427387905") ≡ Err causes.Hz }
{}

/// The text of each kind of reply is its words, separated by one space each.
pub fn texts_of_replies()
    ensures future { reply_text in_ticks (Later 50) ≡ codes "future 50" }
    ensures tags { reply_text in_ticks (Tagged (record { r = None; l = pos 0; p = negsuc 999 })) ≡ codes "tags - 0 -1000" }
    ensures costly { reply_text in_ticks (Granted (record { 0 = 1 }) (record { 0 = 7 }) Reservation false 4) ≡ codes "grant 1 7 reservation cost 4" }
    ensures thirds { fraction_text (pos 1000) 3 ≡ codes "1000/3" }
    ensures grant { reply_text in_ticks (Granted (record { 0 = 1 }) (record { 0 = 7 }) Priority true 1) ≡ codes "grant 1 7 priority beyond" }
{}

/// The text of each kind of line is its words, separated by one space each.
pub fn texts_of_lines()
    ensures config { config_text (record { hz = 1000; idle_age = 1; erase_age = 2; at_limit = Allow; shares = Clock }) ≡ codes "hz 1000 1 2 allow" }
    ensures virtual_time { config_text (record { hz = 1000; idle_age = 1; erase_age = 2; at_limit = Allow; shares = Virtual }) ≡ codes "hz 1000 1 2 allow virtual" }
    ensures register { command_text (Register (record { 0 = 7 }) (record { reservation = Some 10; weight = 2; limit = None }) 5) ≡ codes "client 7 10 2 - 5" }
    ensures cheap { command_text (Add (record { 0 = 7 }) (record { 0 = 9 }) (record { delta = 3; rho = 2; cost = 1 }) 5) ≡ codes "add 7 9 3 2 5" }
    ensures costly { command_text (Add (record { 0 = 7 }) (record { 0 = 9 }) (record { delta = 3; rho = 2; cost = 4 }) 5) ≡ codes "add 7 9 3 2 5 cost 4" }
    ensures cancel { command_text (Cancel (record { 0 = 7 }) (record { 0 = 9 }) Others) ≡ codes "cancel 7 9 others" }
    ensures event { event_text in_ticks (record { worker = record { 0 = 3 }; command = Pull 5; reply = Later 50 }) ≡ codes "3 pull 5 = future 50" }
    ensures header { header_text 3 12 ≡ codes "# server 3 first 12" }
{}

/// The cost behind a grant is 1 or more, and 1 if it is not written.
#[tactic(auto, unfolding(crate::specs::Replies::saying, crate::specs::Replies::reply_said, crate::specs::Replies::count, crate::specs::Replies::cost_said, crate::specs::Replies::cost_of))]
pub fn costs_of_grants()
    ensures absent { reply_of ratio_if_lowest (words (codes "grant 1 7 priority beyond")) ≡ Ok (Granted (record { 0 = 1 }) (record { 0 = 7 }) Priority true 1) }
    ensures one { reply_of ratio_if_lowest (words (codes "grant 1 7 priority cost 1")) ≡ Ok (Granted (record { 0 = 1 }) (record { 0 = 7 }) Priority false 1) }
    ensures four { reply_of ratio_if_lowest (words (codes "grant 1 7 reservation cost 4")) ≡ Ok (Granted (record { 0 = 1 }) (record { 0 = 7 }) Reservation false 4) }
    ensures zero { reply_of ratio_if_lowest (words (codes "grant 1 7 priority cost 0")) ≡ Err causes.Number }
    ensures no_number { reply_of ratio_if_lowest (words (codes "grant 1 7 priority cost")) ≡ Err causes.Words }
    ensures behind { reply_of ratio_if_lowest (words (codes "grant 1 7 priority cost 4 beyond")) ≡ Err causes.Words }
    ensures beyond_reservation { reply_of ratio_if_lowest (words (codes "grant 1 7 reservation beyond")) ≡ Err causes.Words }
{}

/// A script with costs, and its replies. The cost of a request enters the tags by the counts of the next stamp alone, and comes
/// back with its grant.
pub fn costs_of_a_script()
    ensures { out tick_ops in_ticks (text_of
        (codes "hz 1000" ∷ codes "client 1 100 1 - 0" ∷ codes "client 2 - 1 - 0" ∷ codes "add 1 11 0 0 0 cost 4" ∷
        codes "add 1 12 4 0 0 cost 4" ∷ codes "add 2 21 0 0 0" ∷ codes "pull 0" ∷ codes "pull 0" ∷ codes "pull 0" ∷ []))
        ≡ text_of (codes "ok" ∷ codes "ok" ∷ codes "tags 0 0 0" ∷ codes "tags 0 0 4000" ∷ codes "tags - 0 0" ∷
        codes "grant 1 11 reservation cost 4" ∷ codes "grant 1 12 reservation cost 4" ∷ codes "grant 2 21 priority" ∷ []) }
{}

/// A cost of 0 is refused, after the params.
pub fn costs_of_nothing()
    ensures { out tick_ops in_ticks (text_of
        (codes "hz 1000" ∷ codes "client 1 100 1 - 0" ∷ codes "add 1 11 0 0 0 cost 0" ∷ codes "add 1 11 0 1 0 cost 0" ∷ []))
        ≡ text_of (codes "ok" ∷ codes "refused cost" ∷ codes "refused params" ∷ []) }
{}

/// A script that takes requests back, and its replies. What the first one was charged is given back to the second.
pub fn cancels_of_a_script()
    ensures { out tick_ops in_ticks (text_of
        (codes "hz 1000" ∷ codes "client 1 - 1 10 0" ∷ codes "add 1 11 1 1 0" ∷ codes "add 1 12 1 1 0" ∷
        codes "cancel 1 11 others" ∷ codes "cancel 1 11 others" ∷ codes "cancel 2 11 all" ∷ codes "pull 99" ∷ codes "pull 100" ∷ []))
        ≡ text_of (codes "ok" ∷ codes "tags - 100 1000" ∷ codes "tags - 200 2000" ∷ codes "dropped 1" ∷ codes "dropped 0" ∷
        codes "refused unknown" ∷ codes "future 100" ∷ codes "grant 1 12 priority" ∷ []) }
{}

/// A header has five words and two numbers. Other words make none.
#[tactic(auto, unfolding(crate::specs::EventLines::header_words, crate::specs::EventLines::header_said))]
pub fn headers_of_segments()
    ensures header { header_of (words (codes "# server 3 first 12")) ≡ Some (record { 0 = 3 }, 12) }
    ensures short { header_of (words (codes "# server 3 first")) ≡ None }
    ensures long { header_of (words (codes "# server 3 first 12 on")) ≡ None }
    ensures number { header_of (words (codes "# server 3 first 012")) ≡ None }
    ensures joined { header_of (words (codes "#server 3 first 12")) ≡ None }
{}
