//! Who is borne.
ghost use Rattle.std.specs.Prelude.{◌≡◌, Some};

use super::Node;
use disk::Disk;
use doors::Doorway;
use readiness::ReadyLine;
use ways::Ways;

impl<W: Ways + Drop, K: Disk + Drop, L: ReadyLine + Drop, D: Doorway<L> + Drop> Node<W, K, L, D> {
    /// The same node, which bears those that send nothing for so many milliseconds, where others may wait for a place.
    pub fn with_idle(self, idle: u64) -> Node<W, K, L, D>
        ensures { result ≡ record self { doors = record self.doors { idle = Some idle } } }
    {
        let Node {
            doors,
            port,
            ways,
            marks,
        } = self;
        Node {
            doors: doors.with_idle(idle),
            port,
            ways,
            marks,
        }
    }
}
