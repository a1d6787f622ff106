//! The requests as a client's queue stores them.
ghost use Rattle.std.specs.Prelude.{◌≡◌, ◌==◌, ◌++◌, ◌∷◌, [], Some, drop, is_some, length, map, slice_get, if◌then◌else◌, OnOk, OnErr};
ghost use Rattle.std.specs.List.{list_all, AllByRecursion};
ghost use Rattle.dmc_client.specs.internal.Passed.{IsOfRecord};
ghost use Rattle.dmc_tag.specs.Cancel.{staying, befores_after, no_befores, charges_of};
ghost use Rattle.dmc_tag.specs.Rules as rules_of;

use crate::cancelling::{cancel_all, pass};
use crate::subtraction::{
    checked_less_share, less_reservation, shares_have_less, subtract_reservations, subtract_shares,
};
use dmc_tag::cancel::Befores;
use dmc_tag::plain::QueuedRequest;
use dmc_tag::shifting::has_less;
use dmc_tag::spacing::Spacings;
use dmc_tag::tag::Tag;
use dmc_types::config::Counting;
use dmc_types::ids::Token;
use std::alloc::{AllocError, Global};
use std::collections::VecDeque;
use std::marker::Model;

/// Requests in order of arrival. A client mostly has one request queued at a server, or none: so the first is stored in the
/// struct itself, and takes no other memory.
#[derive(Drop)]
pub struct StoredRequests<T: Tag> {
    first: Option<QueuedRequest<T>>,
    // Those behind it, in their order.
    later: VecDeque<QueuedRequest<T>>,
}

impl<T: Tag> Model for StoredRequests<T> {
    ghost use Rattle.std.specs.Prelude.{◌≡◌, List, [], None};
    ghost use Rattle.std.specs.List.{cons_option};
    ghost use Rattle.dmc_tag.specs.declared.plain.QueuedRequest.{QueuedRequest};

    ghost Value = { List (QueuedRequest T) };

    ghost view = { λ s. cons_option s.first s.later.items };

    ghost invariant = { λ s. s.first ≡ None → s.later.items ≡ [] };
}

impl<T: Tag> StoredRequests<T> {
    /// No requests. It does not allocate.
    pub fn new(alloc: Global) -> StoredRequests<T>
        ensures { result ≡ [] }
    {
        StoredRequests {
            first: None,
            later: VecDeque::new(alloc),
        }
    }

    /// Stores a request behind the others. An allocation failure changes nothing.
    pub fn push(&mut self, request: QueuedRequest<T>) -> Result<(), AllocError>
        ensures ok { OnOk result (self.new ≡ self.old ++ request ∷ []) }
        ensures err { OnErr result (self.new ≡ self.old) }
    {
        if self.first.is_none() {
            self.first = Some(request);
            return Ok(());
        }
        if self.later.push_back(request).is_err() {
            return Err(AllocError);
        }
        Ok(())
    }

    /// Removes the request that arrived first.
    // Inlined: callers read a part of the request, and need no copy of it.
    #[inline(always)]
    pub fn pop(&mut self) -> Option<QueuedRequest<T>>
        ensures value { result ≡ slice_get self.old 0 }
        ensures rest { self.new ≡ drop 1 self.old }
    {
        let first = self.first;
        self.first = self.later.pop_front();
        first
    }

    /// The stored request at index i, in order of arrival.
    pub fn get(&self, i: usize) -> Option<QueuedRequest<T>>
        ensures { result ≡ slice_get self.now i }
    {
        if i == 0 {
            return self.first;
        }
        self.later.get(i - 1).copied()
    }

    /// The requests behind the first.
    pub fn later(&self) -> &VecDeque<QueuedRequest<T>>
        ensures { result.now.items ≡ drop 1 self.now }
    {
        &self.later
    }

    /// Removes all requests.
    pub fn clear(&mut self)
        ensures { self.new ≡ [] }
    {
        self.first = None;
        self.later.clear();
    }

    /// Takes back the requests with a token. Returns what became of the tags of the last request.
    pub fn cancel(&mut self, token: Token, counting: Counting, spacings: &Spacings<T>) -> Befores<T>
        requires { AllByRecursion (IsOfRecord T.ops (is_some spacings.now.r)) self.old }
        ensures rest { self.new ≡ staying T.ops token (charges_of T.ops counting (Some spacings.now)) no_befores self.old }
        ensures last { result ≡ befores_after T.ops token (charges_of T.ops counting (Some spacings.now)) no_befores self.old }
    {
        let mut befores = Befores::none();
        let Some(first) = self.first else {
            return befores;
        };
        let mut passed = first;
        pass(&mut befores, token, counting, spacings, &mut passed);
        cancel_all(&mut self.later, token, counting, spacings, &mut befores);
        if first.token != token {
            self.first = Some(passed);
            return befores;
        }
        self.first = self.later.pop_front();
        befores
    }

    /// The number of stored requests.
    pub fn len(&self) -> usize
        ensures { result ≡ length self.now }
    {
        match self.first {
            None => 0,
            Some(_) => self.later.len() + 1,
        }
    }

    /// Whether nothing is stored.
    pub fn is_empty(&self) -> bool
        ensures { result ≡ (length self.now == 0) }
    {
        self.first.is_none()
    }

    /// Whether each P less the amount is a value.
    pub fn shares_have_less(&self, amount: T) -> bool
        ensures { result ≡ list_all (λ r. rules_of.has_less T.ops amount r.tags.p) self.now }
    {
        match self.first {
            None => true,
            Some(first) => has_less(first.tags.p, amount) && shares_have_less(&self.later, amount),
        }
    }

    /// Takes the amount off each P if each stays a value, and otherwise changes nothing. Returns whether each does.
    pub fn subtract_shares(&mut self, amount: T) -> bool
        ensures value { result ≡ list_all (λ r. rules_of.has_less T.ops amount r.tags.p) self.old }
        ensures new { self.new ≡ (if result then map (rules_of.less_share T.ops amount) self.old else self.old) }
    {
        let Some(first) = self.first else {
            return true;
        };
        let Some(changed) = checked_less_share(first, amount) else {
            return false;
        };
        if !shares_have_less(&self.later, amount) {
            return false;
        }
        self.first = Some(changed);
        subtract_shares(&mut self.later, amount);
        true
    }

    /// Takes the amount off each R.
    pub fn subtract_reservations(&mut self, amount: T)
        ensures { self.new ≡ map (rules_of.less_reservation T.ops amount) self.old }
    {
        if let Some(first) = self.first {
            self.first = Some(less_reservation(first, amount));
            subtract_reservations(&mut self.later, amount);
        }
    }
}
