//! A client's workload: the server that each of its requests goes to, chosen by a generator that is seeded by the scene
//! and the client, so that a run can be repeated.
ghost use Rattle.std.specs.Prelude.{◌≡◌, ◌<◌, IfOk, All, vec_len};
ghost use Rattle.dmc_work.specs.Plan.{generator, word, planned, IsBelow};

use dmc_types::ids::{ClientId, ServerId};
use rand_core::utils::NextWord;
use rand_pcg::Lcg64Xsh32;
use std::alloc::{AllocError, Global};

/// The servers of a client's first `n` requests, in order (extension): request j goes to word j of the generator of the seed and
/// the client, modulo the number of servers, both counted from 0.
///
/// It allocates once, and fails only if that allocation fails.
pub fn plan(
    alloc: Global,
    seed: u64,
    client: ClientId,
    servers: u32,
    n: u32,
) -> Result<Vec<ServerId>, AllocError>
    requires { 0 < servers }
    ensures planned { IfOk result (λ plan. plan.items ≡ planned (word (generator seed client.0)) servers n) }
    ensures len { IfOk result (λ plan. vec_len plan ≡ n) }
    ensures within { IfOk result (λ plan. All (IsBelow servers) plan.items) }
{
    let mut words = Lcg64Xsh32::new(seed, u64::from(client.0));
    let mut plan = Vec::with_capacity(alloc, n as usize)?;
    for _request in 0..n {
        let server = ServerId(words.next_word() % servers);
        plan.push(server).unwrap();
    }
    Ok(plan)
}
