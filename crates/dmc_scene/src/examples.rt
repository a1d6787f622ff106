//! Worked examples on the definitions: each contract holds by computation.
ghost use Rattle.std.specs.Prelude.{◌≡◌, ◌∷◌, [], Some, None, Err, codes};
ghost use Rattle.dmc_types.specs.declared.config.TagKind.TheVariants.{Tick};
ghost use Rattle.toml.specs.Data.{no_members};
ghost use Rattle.dmc_scene.specs.Examples.{clients, first, of_number};
ghost use Rattle.dmc_scene.specs.Ignored.{ignored_of};
ghost use Rattle.dmc_scene.specs.Reading.{client_of};
ghost use Rattle.dmc_scene.specs.declared.key.Key.TheVariants as key;
ghost use Rattle.dmc_scene.specs.declared.fault.SceneFault.TheVariants.{Missing};

/// A misspelt key of the scene, and one of its second client.
pub fn misspelt_keys()
    ensures { ignored_of
        (clients (of_number (codes "id") 1 no_members) (of_number (codes "id") 2 (of_number (codes "wieght") 1 no_members))
        (of_number (codes "hz") 1000 (of_number (codes "worker") 1 no_members)))
        ≡ (record { client = None; name = codes "worker" } ∷ record { client = Some 2; name = codes "wieght" } ∷ []) }
{}

/// A key of a client in the scene's own table, and one of the scene in its first client's: both are ignored there.
pub fn misplaced_keys()
    ensures { ignored_of
        (clients (of_number (codes "hz") 1000 no_members) no_members
        (of_number (codes "hz") 1000 (of_number (codes "weight") 1 no_members)))
        ≡ (record { client = None; name = codes "weight" } ∷ record { client = Some 1; name = codes "hz" } ∷ []) }
{}

/// The second client lacks a key.
pub fn second_client_at_fault()
    ensures { client_of Tick 1000 (first ∷ []) (of_number (codes "id") 2 no_members) ≡ Err (Missing key.Weight (Some 2)) }
{}
