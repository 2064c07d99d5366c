//! One end of a connection, frame by frame.
ghost use Rattle.std.specs.Prelude.{◌≡◌, ◌⊎◌, [], IsTrue, IfOk, IfErr, OnOk, OnErr, length, Some, None, Err, ◌↔◌};
ghost use Rattle.logical_time.specs.declared.fault.Fault.{Fault as FaultOf};
ghost use Rattle.logical_time.specs.declared.fault.Fault.TheVariants.{Memory};
ghost use Rattle.linking.specs.declared.side.Stage.TheVariants.{Calling, Open, Proving, Over};
ghost use Rattle.linking.specs.Side.{Hears, Stops, IsTagged, OpensNot, after_trouble, saying, unsayable as why_unsayable, is_met as is_met_at, longest as longest_at};

use crate::greeting::{check_answer, hello_to, other, put_last, theirs};
use crate::said::Said;
use crate::tagged;
use crate::trouble::Trouble;
use crate::unsent::Unsent;
use hello::{Expected, Hello, Key, Role, Secret, check, same};
use logical_time::Fault;
use std::alloc::Global;

/// Where an end stands.
#[derive(Drop)]
pub enum Stage {
    /// It called: its hello is put, and the other's is awaited.
    Calling(Hello),
    /// It was called: the other's hello is awaited. With what was drawn for this connection.
    Open([u8; 32]),
    /// Both hellos are known, and the other's proof is awaited.
    Proving {
        /// Its own role.
        role: Role,
        /// The hello of the end that called.
        connecting: Hello,
        /// The hello of the end that was called.
        accepting: Hello,
    },
    /// The other end has proved itself.
    Joined {
        /// Its own role.
        role: Role,
        /// The key of the connection.
        key: Key,
    },
    /// The connection is over.
    Over,
}

/// What is heard in a frame.
#[derive(Drop)]
pub enum Heard {
    /// The hello of an end that says that it is of this data centre, which proves nothing yet.
    Greeted {
        /// The data centre.
        dc: u16,
    },
    /// The other end has proved itself.
    Met {
        /// Its data centre.
        dc: u16,
        /// Which process it is.
        incarnation: [u8; 16],
    },
    /// What it said.
    Said(Said),
}

/// One end of a connection, frame by frame.
#[derive(Drop)]
pub struct Side {
    pub(crate) stage: Stage,
    pub(crate) unsent: Unsent,
    // How many frames with a tag it said, and how many it took.
    pub(crate) said: u64,
    pub(crate) taken: u64,
}

// The most bytes that the body of a frame can have.
const LONGEST: usize = u32::MAX as usize;

// Ends the connection after all but a refusal.
fn stop(stage: &mut Stage, trouble: &Trouble)
    ensures { stage.new ≡ after_trouble trouble.now stage.old }
{
    match trouble {
        Trouble::Refused(_) => {}
        _ => *stage = Stage::Over,
    }
}

// What a frame says, where the other end has proved itself and so many were taken.
fn open_at(alloc: Global, stage: &Stage, taken: u64, body: &[u8]) -> Result<Said, Trouble>
    requires { IsTrue (is_met_at stage.now) }
    ensures said { IfOk result (λ s. IsTagged body.now stage.now taken s) }
    ensures trouble { IfErr result (λ t. OpensNot body.now stage.now taken t) }
{
    match stage {
        Stage::Joined { role, key } => tagged::open(alloc, key, other(*role), taken, body),
        _ => Err(Trouble::Malformed),
    }
}

impl Side {
    /// An end where nothing is to be written.
    pub(crate) fn new(alloc: Global, stage: Stage) -> Side
        ensures { result ≡ record { stage = stage; unsent = []; said = 0; taken = 0 } }
    {
        Side {
            stage,
            unsent: Unsent::new(alloc),
            said: 0,
            taken: 0,
        }
    }

    // Hears the hello that answers ours.
    fn hear_answer(
        &mut self,
        own: &Expected,
        secret: &Secret,
        ours: Hello,
        body: &[u8],
    ) -> Result<Heard, Trouble>
        requires { self.old.stage ≡ Calling ours }
        ensures heard { IfOk result (λ h. Hears own.now secret.now body.now self.old h self.new) }
        ensures trouble { IfErr result (λ t. Stops own.now secret.now body.now self.old t self.new) }
    {
        let Some(theirs) = Hello::read(body) else {
            self.stage = Stage::Over;
            return Err(Trouble::Malformed);
        };
        if let Err(why) = check_answer(own, &ours, &theirs) {
            self.stage = Stage::Over;
            return Err(Trouble::Unwelcome(why));
        }
        self.unsent
            .put(&secret.proof(Role::Connecting, &ours, &theirs))?;
        self.stage = Stage::Proving {
            role: Role::Connecting,
            connecting: ours,
            accepting: theirs,
        };
        Ok(Heard::Greeted { dc: theirs.from })
    }

    // Hears the hello of an end that called, and answers it.
    fn hear_call(
        &mut self,
        own: &Expected,
        secret: &Secret,
        nonce: [u8; 32],
        body: &[u8],
    ) -> Result<Heard, Trouble>
        requires { self.old.stage ≡ Open nonce }
        ensures heard { IfOk result (λ h. Hears own.now secret.now body.now self.old h self.new) }
        ensures trouble { IfErr result (λ t. Stops own.now secret.now body.now self.old t self.new) }
    {
        let Some(theirs) = Hello::read(body) else {
            self.stage = Stage::Over;
            return Err(Trouble::Malformed);
        };
        let ours = hello_to(own, theirs.from, nonce);
        self.unsent.put(&ours.write())?;
        if let Err(why) = check(own, &theirs) {
            self.stage = Stage::Over;
            return Err(Trouble::Unwelcome(why));
        }
        self.stage = Stage::Proving {
            role: Role::Accepting,
            connecting: theirs,
            accepting: ours,
        };
        Ok(Heard::Greeted { dc: theirs.from })
    }

    // Hears the other end's proof.
    fn hear_proof(
        &mut self,
        own: &Expected,
        secret: &Secret,
        role: Role,
        connecting: Hello,
        accepting: Hello,
        body: &[u8],
    ) -> Result<Heard, Trouble>
        requires { self.old.stage ≡ Proving role connecting accepting }
        ensures heard { IfOk result (λ h. Hears own.now secret.now body.now self.old h self.new) }
        ensures trouble { IfErr result (λ t. Stops own.now secret.now body.now self.old t self.new) }
    {
        let peer = theirs(role, &connecting, &accepting);
        if !same(body, &secret.proof(other(role), &connecting, &accepting)) {
            self.stage = Stage::Over;
            return Err(Trouble::Unproved);
        }
        if let Err(why) = check(own, &peer) {
            self.stage = Stage::Over;
            return Err(Trouble::Unwelcome(why));
        }
        put_last(&mut self.unsent, secret, role, &connecting, &accepting)?;
        let key = secret.key(&connecting, &accepting);
        self.stage = Stage::Joined { role, key };
        self.said = 0;
        self.taken = 0;
        Ok(Heard::Met {
            dc: peer.from,
            incarnation: peer.incarnation,
        })
    }

    // Hears what an end says that has proved itself.
    fn hear_said(
        &mut self,
        alloc: Global,
        own: &Expected,
        secret: &Secret,
        body: &[u8],
    ) -> Result<Heard, Trouble>
        requires { IsTrue (is_met_at self.old.stage) }
        ensures heard { IfOk result (λ h. Hears own.now secret.now body.now self.old h self.new) }
        ensures trouble { IfErr result (λ t. Stops own.now secret.now body.now self.old t self.new) }
    {
        let Some(next) = self.taken.checked_add(1) else {
            return Err(Trouble::Refused(Fault::ClockSpent));
        };
        match open_at(alloc, &self.stage, self.taken, body) {
            Ok(said) => {
                self.taken = next;
                Ok(Heard::Said(said))
            }
            Err(trouble) => {
                stop(&mut self.stage, &trouble);
                Err(trouble)
            }
        }
    }

    /// Hears the body of a frame. After all trouble but `Refused` the connection is over, and after that one the end is as it was.
    /// Costs a few passes over the body.
    pub(crate) fn hear(
        &mut self,
        alloc: Global,
        own: &Expected,
        secret: &Secret,
        body: &[u8],
    ) -> Result<Heard, Trouble>
        ensures heard { IfOk result (λ h. Hears own.now secret.now body.now self.old h self.new) }
        ensures trouble { IfErr result (λ t. Stops own.now secret.now body.now self.old t self.new) }
    {
        match &self.stage {
            Stage::Calling(ours) => {
                let ours = *ours;
                self.hear_answer(own, secret, ours, body)
            }
            Stage::Open(nonce) => {
                let nonce = *nonce;
                self.hear_call(own, secret, nonce, body)
            }
            Stage::Proving {
                role,
                connecting,
                accepting,
            } => {
                let (role, connecting, accepting) = (*role, *connecting, *accepting);
                self.hear_proof(own, secret, role, connecting, accepting, body)
            }
            Stage::Joined { .. } => self.hear_said(alloc, own, secret, body),
            Stage::Over => Err(Trouble::Malformed),
        }
    }

    /// Whether the other end has proved itself.
    pub(crate) fn is_met(&self) -> bool
        ensures { result ≡ is_met_at self.now.stage }
    {
        matches!(&self.stage, Stage::Joined { .. })
    }

    /// Whether the connection is over.
    pub(crate) fn is_over(&self) -> bool
        ensures { IsTrue result ↔ (self.now.stage ≡ Over) }
    {
        matches!(&self.stage, Stage::Over)
    }

    /// How many bytes the body of a frame may have that is taken now.
    pub(crate) fn longest(&self) -> usize
        ensures { result ≡ longest_at self.now.stage }
    {
        match &self.stage {
            Stage::Joined { .. } => LONGEST,
            _ => 512,
        }
    }

    /// Why a body of so many bytes can't be said, if it can't.
    pub(crate) fn unsayable(&self, count: usize) -> Option<Fault>
        ensures { result ≡ why_unsayable self.now count }
    {
        if !self.is_met() {
            return Some(Fault::StrangerEnd);
        }
        if self.said == u64::MAX {
            return Some(Fault::ClockSpent);
        }
        if LONGEST - 16 < count {
            return Some(Fault::Oversize);
        }
        None
    }

    /// Says a body that can be said. Refused with `Memory`; then nothing changes. Costs a few passes over the body.
    pub(crate) fn say(&mut self, alloc: Global, body: &[u8]) -> Result<(), Fault>
        ensures said { OnOk result (self.new ≡ saying body.now self.old) }
        ensures able { OnOk result (why_unsayable self.old (length body.now) ≡ None) }
        ensures refused { IfErr result (λ f. (f ≡ Memory) ⊎ (why_unsayable self.old (length body.now) ≡ Some f)) }
        ensures unable { (f : FaultOf) → why_unsayable self.old (length body.now) ≡ Some f → result ≡ Err f }
        ensures stays { OnErr result (self.new ≡ self.old) }
    {
        if let Some(why) = self.unsayable(body.len()) {
            return Err(why);
        }
        let Stage::Joined { role, key } = &self.stage else {
            return Err(Fault::StrangerEnd);
        };
        tagged::put(alloc, &mut self.unsent, key, *role, self.said, body)?;
        self.said += 1;
        Ok(())
    }
}
