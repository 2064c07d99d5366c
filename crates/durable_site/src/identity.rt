//! Which process a site is of.

/// Which process a site is of, and by which file of sites: whose its log is.
#[derive(Clone, Copy)]
pub struct Identity {
    /// The data centre.
    pub dc: u16,
    /// Which process it is: drawn where a log is made, and told by the log from then on.
    pub incarnation: [u8; 16],
    /// The digest of the file of sites.
    pub digest: [u8; 32],
}
