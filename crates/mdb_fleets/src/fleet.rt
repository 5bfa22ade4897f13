//! The replica set.

ghost use Rattle.std.specs.Prelude.{◌≡◌, ◌<◌, ◌≤◌, ◌-◌, ◌^◌, length, IfOk, OnErr, IsTrue, All, slice_get};
ghost use Rattle.std.specs.Option.{option_copied, option_map};
ghost use Rattle.mdb_fleets.specs.Members.{is_primary, greatest_version};
ghost use Rattle.mdb_fleets.specs.ReplicaSet.{new_set, member_at, elected, demoted, reconfigured_at, asked, reply_now, HasRoom};

use crate::link::FleetLink;
use crate::member::{Member, Sent};
use crate::replies::reply_of;
use mdb_base::OutOfMemory;
use mdb_hello::HelloCommandResponse;
use std::alloc::Global;
use std::marker::Model;

/// A replica set that is made up: 1 to 50 members, numbered from 0, and the replies that they were asked for. An election is
/// decided by the caller; no majority is asked, and an old primary goes on believing that it is one until it steps down.
#[derive(Drop)]
pub struct Fleet {
    members: Vec<Member>,
    elections: u64,
    wire: Vec<Sent>,
}

impl Model for Fleet {
    ghost use Rattle.std.specs.Coded.{codes};
    ghost use Rattle.mdb_base.specs.DocumentCode.{fields_coded};
    ghost use Rattle.mdb_fleets.specs.ReplicaSet.{ReplicaSet};

    ghost Value = { ReplicaSet };

    ghost coded = { Prim.hlevel (codes, fields_coded) };

    ghost view = { λ f. record { members = f.members.items; elections = f.elections; wire = f.wire.items } };

    ghost use Rattle.mdb_fleets.specs.Members.{AreSound};

    ghost invariant = { λ f. AreSound f.members.items f.elections };
}

fn greatest_version(members: &[Member]) -> u32
    ensures { result ≡ greatest_version members.now }
{
    members.iter().fold(0, |v, m| v.max(m.set_version))
}

impl Fleet {
    /// So many members, all of them secondaries with set version 1. No election was held.
    pub fn new(alloc: Global, count: u32) -> Result<Fleet, OutOfMemory>
        requires some { 1 ≤ count }
        requires few { count ≤ 50 }
        ensures { IfOk result (λ fleet. fleet ≡ new_set count) }
    {
        let member = Member {
            set_version: 1,
            election: None,
            counter: 0,
        };
        Ok(Fleet {
            members: vec![in alloc; member; count as usize]?,
            elections: 0,
            wire: Vec::new(alloc),
        })
    }

    /// How many members there are.
    pub fn count(&self) -> u32
        ensures count { result ≡ length self.now.members }
        ensures few { result ≤ 50 }
    {
        self.members.len() as u32
    }

    /// How many replies are on the wire.
    pub fn replies(&self) -> usize
        ensures { result ≡ length self.now.wire }
    {
        self.wire.len()
    }

    /// The next election, numbered from 1, is this member's: it becomes primary, with the greatest set version of all. The
    /// others stay as they are. No memory is taken.
    pub fn elect(&mut self, member: u32)
        requires member { member < length self.old.members }
        requires room { HasRoom self.old }
        ensures { self.new ≡ elected self.old member }
    {
        let index = member as usize;
        let version = greatest_version(self.members.as_slice());
        self.elections += 1;
        self.members[index] = self.members[index].won(self.elections, version);
    }

    /// The member becomes a secondary. `false` exactly where it is one; then nothing changes. No memory is taken.
    pub fn step_down(&mut self, member: u32) -> bool
        requires member { member < length self.old.members }
        requires room { HasRoom self.old }
        ensures answer { result ≡ is_primary (member_at self.old member) }
        ensures changed { self.new ≡ demoted self.old member }
    {
        let index = member as usize;
        let known = self.members[index];
        if !known.is_primary() {
            return false;
        }
        self.members[index] = known.stepped_down();
        true
    }

    /// The set version of the member rises by one. `false` exactly where it is a secondary; then nothing changes. No memory
    /// is taken.
    pub fn reconf(&mut self, member: u32) -> bool
        requires member { member < length self.old.members }
        requires room { HasRoom self.old }
        ensures answer { result ≡ is_primary (member_at self.old member) }
        ensures changed { self.new ≡ reconfigured_at self.old member }
    {
        let index = member as usize;
        let known = self.members[index];
        if !known.is_primary() {
            return false;
        }
        self.members[index] = known.reconfigured();
        true
    }

    /// Puts the member's reply on the wire, as it is now, and answers its number, counted from 0.
    pub fn ask(&mut self, alloc: Global, member: u32) -> Result<u32, OutOfMemory>
        requires member { member < length self.old.members }
        requires few { length self.old.wire < 2 ^ 32 - 1 }
        ensures number { IfOk result (λ number. number ≡ length self.old.wire) }
        ensures asked { IfOk result (λ number. self.new ≡ asked self.old member) }
        ensures err { OnErr result (self.new ≡ self.old) }
    {
        let number = self.wire.len() as u32;
        let said = self.members[member as usize];
        let response = self.reply_now(alloc, member)?;
        self.wire.push(Sent {
            member,
            said,
            response,
        })?;
        Ok(number)
    }

    /// The reply with this number, `None` exactly where there is none. It stays on the wire.
    pub fn reply(&self, number: u32) -> Option<&HelloCommandResponse>
        ensures { option_copied result ≡ option_map (λ sent. sent.response) (slice_get self.now.wire number) }
    {
        match self.wire.get(number as usize) {
            Some(sent) => Some(&sent.response),
            None => None,
        }
    }

    /// The reply with this number, and who sent it.
    pub fn sent(&self, number: u32) -> Option<&Sent>
        ensures { option_copied result ≡ slice_get self.now.wire number }
    {
        self.wire.get(number as usize)
    }

    /// A link to the member, over which it answers hellos. No memory is taken.
    pub fn link(&self, member: u32) -> FleetLink<'_>
        requires { member < length self.now.members }
        ensures fleet { result.fleet.now ≡ self.now }
        ensures member { result.member ≡ member }
    {
        FleetLink {
            fleet: self,
            member,
        }
    }

    // What the member answers to a hello now.
    pub(crate) fn reply_now(
        &self,
        alloc: Global,
        member: u32,
    ) -> Result<HelloCommandResponse, OutOfMemory>
        requires { member < length self.now.members }
        ensures { IfOk result (λ reply. reply ≡ reply_now self.now member) }
    {
        let count = self.members.len() as u32;
        reply_of(alloc, count, member, &self.members[member as usize])
    }
}
