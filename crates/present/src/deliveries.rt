//! A world that keeps no past as what a drain drains.
use crate::present::Present;
use drains::Deliveries;
use logical_time::Fault;
use messages::Topology;

impl Deliveries for Present {
    ghost world = { λ p. p };

    ghost stays = { λ start p. Unit {0} };

    ghost knows = { λ p session number. Unit {0} };

    fn topology(&self) -> &Topology {
        self.topology()
    }

    fn deliver_first(&mut self) -> Result<bool, Fault> {
        if self.is_quiet() {
            return Ok(false);
        }
        let _ended = self.deliver()?;
        Ok(true)
    }
}
