//! Who watches what happens between sites.
use linking::Trouble;

/// What happens between sites.
#[derive(Drop)]
pub enum News {
    /// The site of a data centre was met for the first time.
    Met(u16),
    /// So many bytes wait for the site of a data centre.
    Behind(u16, u64),
    /// The site of a data centre sent what may not come from there: nothing more is taken from it.
    Refused(u16),
    /// One who called, or was called, isn't welcome, or isn't who it says.
    Trouble(Trouble),
}

/// Who watches.
pub trait Watcher {
    /// This happened.
    fn came(&mut self, news: News);
}
