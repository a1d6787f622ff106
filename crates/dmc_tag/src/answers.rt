//! What a scheduler's calls return, as replies. An allocation failure is an error.
ghost use Rattle.std.specs.Prelude.{◌≡◌};
ghost use Rattle.std.specs.Result.{result_ok};
ghost use Rattle.dmc_tag.specs.Answers.{call_reply, sure_call_reply, pull_reply, clean_reply};
ghost use Rattle.dmc_tag.specs.declared.reply.Reply.TheVariants as replies;

use crate::reply::{Pulled, Reply, Tags};
use dmc_types::refusal::{QueueFault, Refusal};
use std::alloc::AllocError;

/// The reply of `register`.
pub fn registered<T>(answer: Result<(), QueueFault>) -> Result<Reply<T>, AllocError>
    ensures { result_ok result ≡ call_reply (λ _. replies.Registered) answer }
{
    match answer {
        Ok(()) => Ok(Reply::Registered),
        Err(QueueFault::Refused(refusal)) => Ok(Reply::Refused(refusal)),
        Err(QueueFault::Memory) => Err(AllocError),
    }
}

/// The reply of `update_info`.
pub fn updated<T>(answer: Result<(), Refusal>) -> Reply<T>
    ensures { Some result ≡ sure_call_reply (λ _. replies.Updated) answer }
{
    match answer {
        Ok(()) => Reply::Updated,
        Err(refusal) => Reply::Refused(refusal),
    }
}

/// The reply of `add_request`.
pub fn tagged<T>(answer: Result<Tags<T>, QueueFault>) -> Result<Reply<T>, AllocError>
    ensures { result_ok result ≡ call_reply replies.Tagged answer }
{
    match answer {
        Ok(tags) => Ok(Reply::Tagged(tags)),
        Err(QueueFault::Refused(refusal)) => Ok(Reply::Refused(refusal)),
        Err(QueueFault::Memory) => Err(AllocError),
    }
}

/// The reply of `pull_request`.
pub fn pulled<T>(answer: Result<Pulled, Refusal>) -> Reply<T>
    ensures { Some result ≡ sure_call_reply pull_reply answer }
{
    match answer {
        Ok(pulled) => pulled_reply(&pulled),
        Err(refusal) => Reply::Refused(refusal),
    }
}

/// What an accepted pull returned, as a reply.
fn pulled_reply<T>(pulled: &Pulled) -> Reply<T>
    ensures { result ≡ pull_reply pulled.now }
{
    match *pulled {
        Pulled::Returning {
            client,
            token,
            phase,
            beyond,
            cost,
        } => Reply::Granted {
            client,
            token,
            phase,
            beyond,
            cost,
        },
        Pulled::Future(moment) => Reply::Later(moment),
        Pulled::Nothing => Reply::Nothing,
    }
}

/// The reply of `remove_by_client`.
pub fn removed<T>(answer: Result<u32, Refusal>) -> Reply<T>
    ensures { Some result ≡ sure_call_reply replies.Removed answer }
{
    match answer {
        Ok(count) => Reply::Removed(count),
        Err(refusal) => Reply::Refused(refusal),
    }
}

/// The reply of `clean`.
pub fn cleaned<T>(counts: (u32, u32)) -> Reply<T>
    ensures { result ≡ clean_reply counts }
{
    let (idled, erased) = counts;
    Reply::Cleaned { idled, erased }
}
