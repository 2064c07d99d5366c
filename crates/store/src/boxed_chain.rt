//! Chains that stand by themselves in memory.
ghost use Rattle.std.specs.Prelude.{◌≡◌, ◌+◌, ◌≤◌, ◌<◌, ◌⊎◌, [], true, IfOk, IfErr, OnOk, IsOk};
ghost use Rattle.logical_time.specs.declared.fault.Fault.TheVariants as fault;
ghost use Rattle.versions.specs.Chain.{put_of};
ghost use Rattle.versions.specs.Newest.{has_stamp};
ghost use Rattle.store.specs.Crowded.{comes_to_more};
ghost use Rattle.store.specs.Stored.{collected_held};

use logical_time::{Fault, Time};
use std::alloc::Global;
use std::marker::Model;
use version_gc::collect;
use versions::{Chain, Version};

/// A chain that stands by itself in memory. It has room for four versions in it, which what leads to it needn't have.
#[derive(Drop)]
pub(crate) struct BoxedChain {
    chain: Box<Chain>,
}

impl Model for BoxedChain {
    ghost use Rattle.versions.specs.Chain.{Held};

    ghost Value = { Held };

    ghost view = { λ b. b.chain.value };
}

impl BoxedChain {
    /// A chain without a version, with room for one.
    pub(crate) fn new(alloc: Global) -> Result<BoxedChain, Fault>
        ensures versions { IfOk result (λ b. b.versions ≡ []) }
        ensures room { IfOk result (λ b. 0 < b.room) }
        ensures memory { IfErr result (λ e. e ≡ fault.Memory) }
    {
        let mut chain = Chain::new(alloc);
        chain.reserve(1)?;
        match Box::new(alloc, chain) {
            Ok(chain) => Ok(BoxedChain { chain }),
            Err(_) => Err(Fault::Memory),
        }
    }

    /// The chain.
    #[inline]
    pub(crate) fn as_chain(&self) -> &Chain
        ensures { result.now ≡ self.now }
    {
        self.chain.as_ref()
    }

    /// Makes room for one more version.
    #[inline]
    pub(crate) fn reserve(&mut self) -> Result<(), Fault>
        ensures same { self.new.versions ≡ self.old.versions }
        ensures room { self.old.room ≤ self.new.room }
        ensures ok { OnOk result (0 < self.new.room) }
        ensures succeeds { 0 < self.old.room → IsOk result }
        ensures memory { IfErr result (λ e. e ≡ fault.Memory) }
    {
        self.chain.reserve(1)
    }

    /// Puts a version into it, and answers whether it came to hold more than one by that.
    #[inline(always)]
    pub(crate) fn put(&mut self, version: Version) -> bool
        requires { (0 < self.old.room) ⊎ (has_stamp self.old.versions version.stamp ≡ true) }
        ensures versions { self.new.versions ≡ put_of self.old.versions version }
        ensures room { self.old.room ≤ self.new.room + 1 }
        ensures more { result ≡ comes_to_more self.old self.new }
    {
        let before = self.chain.len();
        self.chain.put(version).unwrap();
        before <= 1 && self.chain.len() > 1
    }

    /// Drops the versions that are the newest at no time from this one on.
    pub(crate) fn collect(&mut self, time: Time)
        ensures { self.new ≡ collected_held time self.old }
    {
        collect(&mut self.chain, time);
    }
}
