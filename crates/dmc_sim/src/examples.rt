//! Worked examples on the definition: each contract holds by computation.
ghost use Rattle.std.specs.Prelude.{◌≡◌, ◌∷◌, [], Ok, false, true};
ghost use Rattle.dmc_types.specs.declared.config.Counting.TheVariants.{All, Others};
ghost use Rattle.dmc_sim.specs.Examples.{client_row, report, server_row, two_clients};

/// Four rounds, at 0, 50, 100 and 150. Client 1 is granted in the constraint phase at 0 and 100, client 2 in the weight phase at 50
/// and 150.
pub fn two_clients()
    ensures { report (two_clients All 100) ≡ Ok (record {
      clients = client_row 1 2 2 2 0 2 ∷ client_row 2 2 2 0 2 2 ∷ [];
      servers = server_row 0 2 2 0 ∷ [];
      end = 150;
      turns_out = false;
      with_costs = false;
    }) }
{}

/// After one round the round limit is reached, and client 2's request is left.
pub fn turns_out()
    ensures { report (two_clients All 1) ≡ Ok (record {
      clients = client_row 1 1 1 1 0 1 ∷ client_row 2 1 0 0 0 0 ∷ [];
      servers = server_row 0 1 0 1 ∷ [];
      end = 0;
      turns_out = true;
      with_costs = false;
    }) }
{}

/// Four rounds are enough: all requests are completed in the last.
pub fn in_time()
    ensures { report (two_clients All 4) ≡ report (two_clients All 100) }
{}

/// If only completions at other servers count, client 1 is granted in the weight phase at 100.
pub fn others_counted()
    ensures { report (two_clients Others 100) ≡ Ok (record {
      clients = client_row 1 2 2 1 1 2 ∷ client_row 2 2 2 0 2 2 ∷ [];
      servers = server_row 0 1 3 0 ∷ [];
      end = 150;
      turns_out = false;
      with_costs = false;
    }) }
{}
