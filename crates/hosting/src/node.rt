//! Rounds of a node.
ghost use Rattle.std.specs.Prelude.{◌≡◌, ◌⊎◌, [], All, None, true, Ok, Err, IfOk, OnOk, OnErr, IsErr, length};
ghost use Rattle.std.specs.Option.{unwrap_or};
ghost use Rattle.doors.specs.Rounds.{IsSound};
ghost use Rattle.hosting.specs.Alone.{AnswersAlone};
ghost use Rattle.hosting.specs.Rounds.{due, AreMarked, SettlesFirst, BreaksOff, IsPutOff, HasRounded};
ghost use Rattle.site_port.specs.Port.{Settles, AreLeft};
ghost use Rattle.sites.specs.Answers.{AnswersAreMeant};

use crate::crossing::{MOST, hear_all, send_all};
use crate::marks::{Marks, collect_due};
use disk::Disk;
use doors::{Doors, Doorway, Ended, ReadySocket, Sockets};
use logical_time::Fault;
use readiness::{ReadyLine, SharedPort};
use site_port::SiteSessions;
use sites::{answers_of_sites, idle_sites_have_answered};
use std::alloc::Global;
use threaded::Actor;
use ways::Ways;

mod bearing;

/// How many turns the site takes at most between two waits.
const MOST_TURNS: u64 = 1_000_000;

/// Doors, the site of one data centre whose sessions answer those who come by the doors, and the ways to other sites. It must be
/// closed.
pub struct Node<W, K: Disk, L = ReadySocket, D = Sockets> {
    doors: Doors<L, D>,
    port: SiteSessions<Actor, K>,
    ways: W,
    marks: Marks,
}

// The marks are these from now on, if there are any.
fn renew(marks: &mut Marks, fresh: Option<Marks>)
    ensures { marks.new ≡ unwrap_or fresh marks.old }
{
    if let Some(fresh) = fresh {
        *marks = fresh;
    }
}

// The site hears what came, and handles what waits; its shards collect, where it is time; all that settles; and then what came is confirmed, and
// what is to go is given.
fn pass<W: Ways, K: Disk>(
    port: &mut SiteSessions<Actor, K>,
    ways: &mut W,
    marks: &mut Marks,
    time: u64,
) -> Result<(), Fault>
    ensures passed { OnOk result (SettlesFirst (Settles K.seen K.may_leave K.failed K.moment K.left_since) W.steps (due marks.old time) port.old ways.old port.new ways.new) }
    ensures broken { OnErr result (BreaksOff (Settles K.seen K.may_leave K.failed K.moment K.left_since) W.steps (due marks.old time) port.old ways.old port.new ways.new) }
    ensures marked { OnOk result (AreMarked time port.old.site.site port.new.site.site marks.old marks.new) }
    ensures unmarked { OnErr result (marks.new ≡ marks.old) }
{
    ways.exchange(time)?;
    hear_all(port, ways)?;
    port.turn(MOST_TURNS)?;
    let fresh = collect_due(port, marks, time)?;
    port.settle()?;
    ways.confirm();
    send_all(port, ways, MOST)?;
    ways.flush(time)?;
    renew(marks, fresh);
    Ok(())
}

// Who comes next is told nothing of what others asked for: what is open at the places that were offered is nobody's, and where something
// is open at the one that is offered next, it is offered last.
fn welcome<K: Disk, L: ReadyLine + Drop, D: Doorway<L> + Drop>(
    doors: &mut Doors<L, D>,
    port: &mut SiteSessions<Actor, K>,
)
    ensures left { AreLeft doors.old.hall.fresh.items port.old.waiting port.new.waiting }
    ensures stays { port.new ≡ record port.old { waiting = port.new.waiting } }
    ensures put_off { IsPutOff port.new.waiting doors.old.hall.free.items doors.new.hall.free.items }
    ensures same { doors.new ≡ record doors.old { hall = record doors.old.hall { free = doors.new.hall.free } } }
{
    port.leave(doors.fresh());
    if let Some(place) = doors.next_free()
        && port.is_open(place)
    {
        doors.put_off();
    }
}

// The site passes on; and then the doors have a round.
fn go_round<W: Ways, K: Disk, L: ReadyLine + Drop, D: Doorway<L> + Drop>(
    doors: &mut Doors<L, D>,
    port: &mut SiteSessions<Actor, K>,
    ways: &mut W,
    marks: &mut Marks,
    time: u64,
) -> Result<(), Fault>
    ensures rounded { HasRounded (Settles K.seen K.may_leave K.failed K.moment K.left_since) W.steps W.behind L.seen D.steps D.nobody D.announces time doors.old port.old ways.old marks.old doors.new port.new ways.new marks.new result ⊎ (IsErr result × (doors.new ≡ doors.old) × (marks.new ≡ marks.old) × BreaksOff (Settles K.seen K.may_leave K.failed K.moment K.left_since) W.steps (due marks.old time) port.old ways.old port.new ways.new) }
    ensures count { length doors.new.hall.places.places.items ≡ length doors.old.hall.places.places.items }
{
    pass(port, ways, marks, time)?;
    port.refuse_batches(ways.is_behind());
    let went = doors.round(port, time);
    if went.is_ok() {
        welcome(doors, port);
    }
    went
}

impl<W: Ways + Drop, K: Disk + Drop, L: ReadyLine + Drop, D: Doorway<L> + Drop> Node<W, K, L, D> {
    /// A node of this site, whose clients come by this door, and which has a place for each of its sessions. A round waits for no more than
    /// so many milliseconds. Refused with `Memory`; then the site is closed.
    pub fn new(
        alloc: Global,
        door: D,
        port: SiteSessions<Actor, K>,
        ways: W,
        longest: u64,
    ) -> Result<Node<W, K, L, D>, Fault>
        ensures made { IfOk result (λ n. (n.port ≡ port) × (n.ways ≡ ways) × (n.doors.door ≡ door)) }
        ensures unmarked { IfOk result (λ n. (n.marks.clocks.items ≡ []) × (n.marks.taken ≡ 0)) }
        ensures count { IfOk result (λ n. length n.doors.hall.places.places.items ≡ length port.waiting) }
        ensures free { IfOk result (λ n. All (λ c. c ≡ None) n.doors.hall.places.places.items) }
        ensures sound { IfOk result (λ n. IsSound L.seen D.nobody n.doors) }
    {
        let places = port.places();
        match Doors::new(alloc, door, places) {
            Ok(doors) => Ok(Node {
                doors: doors.with_longest(longest),
                port,
                ways,
                marks: Marks::new(alloc),
            }),
            Err(fault) => {
                port.close();
                Err(fault)
            }
        }
    }

    /// A round, which begins at this time, in milliseconds: the site hears what came from others, handles what waits, and once all that is on
    /// the disk for good, where a log is kept, it confirms what came and gives what is to go; then each connection that is ready is
    /// answered by the session of its place, once that is. Who comes is told nothing of what was asked at its place before. Refused as the
    /// doors, the site and the ways are; then no further round should be asked for.
    ///
    /// Before it gives anything, and where 5,000 ms have passed since the last time, the shards collect up to what their clocks were then.
    /// So what is superseded stays readable for 5 to 10 seconds, as reads in two rounds across a wide area network need it, and what is
    /// older goes. Where memory is refused for that nothing is lost: it is tried again. Where the time stays 0 nothing is collected.
    pub fn round(&mut self, time: u64) -> Result<(), Fault>
        // also where the doors are refused; or it is refused before anybody was asked, and then too nothing left it that wasn't settled
        ensures rounded { HasRounded (Settles K.seen K.may_leave K.failed K.moment K.left_since) W.steps W.behind L.seen D.steps D.nobody D.announces time self.old.doors self.old.port self.old.ways self.old.marks self.new.doors self.new.port self.new.ways self.new.marks result ⊎ (IsErr result × (self.new.doors ≡ self.old.doors) × (self.new.marks ≡ self.old.marks) × BreaksOff (Settles K.seen K.may_leave K.failed K.moment K.left_since) W.steps (due self.old.marks time) self.old.port self.old.ways self.new.port self.new.ways) }
        // while the site is sound, each operation that ended at it means its request, in each run that has its journals
        ensures meant { self.new.port.site.site.sound ≡ true → AnswersAreMeant self.new.port.site.site.top self.new.port.site.site.dc self.new.port.site.site.story }
        // and where nothing waits there, each batch and each read of a session at home has ended, whoever can be reached
        ensures alone { self.new.port.site.site.sound ≡ true → AnswersAlone self.new.port.site.site.top self.new.port.site.site.dc self.new.port.site.site.story }
        ensures count { length self.new.doors.hall.places.places.items ≡ length self.old.doors.hall.places.places.items }
    {
        let went = go_round(
            &mut self.doors,
            &mut self.port,
            &mut self.ways,
            &mut self.marks,
            time,
        );
        let _sound = self.port.site().is_sound();
        answers_of_sites();
        idle_sites_have_answered();
        went
    }

    /// The connections that ended with a fault in the last round, in the order in which they were closed.
    pub fn ended(&self) -> &[Ended] {
        self.doors.ended()
    }

    /// The ways to other sites.
    pub fn ways(&self) -> &W
        ensures { result.now ≡ self.now.ways }
    {
        &self.ways
    }

    /// Ends the site, and closes the connections.
    pub fn close(self) {
        let Node {
            doors: _,
            port,
            ways: _,
            marks: _,
        } = self;
        port.close();
    }
}
