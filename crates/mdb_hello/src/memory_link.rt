//! A link in memory.

ghost use Rattle.std.specs.Prelude.{◌≡◌, map, IfOk, OnErr};
ghost use Rattle.mdb_base.specs.Document.{doc_content};
ghost use Rattle.mdb_hello.specs.MemoryLinks.{left, link_state, unfailed, link_error, listed_calls, call_count, next_call, fails_next, failed};

use crate::command::Command;
use crate::error::LinkError;
use crate::link::Link;
use mdb_base::{Doc, Error};
use std::alloc::{AllocError, Global};

/// A link that gives its documents one after the other, whatever the command. Its calls are numbered from 1. Those
/// in `fails`, and those for which no document is left, fail with `error`, and leave the documents.
#[derive(Drop)]
pub struct MemLink {
    documents: Vec<Doc>,
    error: Error,
    fails: Vec<u64>,
    at: usize,
    calls: u64,
    faults: u64,
    last_error: Option<Error>,
}

impl MemLink {
    /// A link that was not called yet. No memory is taken.
    pub fn new(documents: Vec<Doc>, error: Error, fails: Vec<u64>) -> MemLink
        ensures documents { left result ≡ map doc_content documents.items }
        ensures error { link_error result ≡ error }
        ensures fails { listed_calls result ≡ fails.items }
        ensures calls { call_count result ≡ 0 }
        ensures state { link_state result ≡ unfailed }
    {
        MemLink {
            documents,
            error,
            fails,
            at: 0,
            calls: 0,
            faults: 0,
            last_error: None,
        }
    }

    // The number of the next call.
    fn next_call(&self) -> u64
        ensures { result ≡ next_call self.now }
    {
        self.calls.saturating_add(1)
    }

    fn fails_next(&self) -> bool
        ensures { result ≡ fails_next self.now }
    {
        self.fails.contains(&self.next_call()) || self.at >= self.documents.len()
    }

    // Fails this call, and gives the error.
    fn fail(&mut self) -> Result<Error, AllocError>
        ensures failed { IfOk result (λ error. self.new ≡ failed self.old) }
        ensures error { IfOk result (λ error. error ≡ link_error self.old) }
        ensures kept { OnErr result (self.new ≡ self.old) }
    {
        let error = self.error.clone()?;
        let last_error = self.error.clone()?;
        self.calls = self.next_call();
        self.faults = self.faults.saturating_add(1);
        self.last_error = Some(last_error);
        Ok(error)
    }
}

impl Link for MemLink {
    ghost use Rattle.mdb_hello.specs.MemoryLinks.{next_document, link_state, Moves};

    ghost document = { λ s c. next_document s };

    ghost state = { link_state };

    ghost exchanged = { λ s c answer t. Moves s t answer };

    fn exchange(&mut self, _alloc: Global, _command: &Command) -> Result<Doc, LinkError> {
        if self.fails_next() {
            return Err(LinkError::Failed(self.fail()?));
        }
        let doc = self.documents[self.at].clone()?;
        self.calls = self.next_call();
        self.at += 1;
        Ok(doc)
    }
}
