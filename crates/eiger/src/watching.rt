//! What is told of other sites.
use hello::Unwelcome;
use linking::Trouble;
use meeting::{News, Watcher};
use program::Output;
use std::alloc::AllocError;
use std::io::Stderr;

/// Tells on standard error what happens between sites.
#[derive(Drop)]
pub(crate) struct Watch<'a> {
    rt: &'a HostRuntime,
    errors: Output<Stderr>,
}

// Why one isn't welcome.
fn reason(trouble: &Trouble) -> &'static str {
    match trouble {
        Trouble::Unwelcome(Unwelcome::Version) => "it speaks another version",
        Trouble::Unwelcome(Unwelcome::Stranger) => "it isn't another site of this store",
        Trouble::Unwelcome(Unwelcome::OtherSites) => "it has another file of sites",
        Trouble::Unwelcome(Unwelcome::KnowsAnother) => "it knows another process of this site",
        Trouble::Unwelcome(Unwelcome::OtherProcess) => {
            "it is another process than the one that was met"
        }
        Trouble::Unproved => "it doesn't know the secret",
        Trouble::Forged => "a frame has a wrong tag",
        Trouble::Malformed => "it sent what is no frame",
        Trouble::Refused(_) => "memory was refused",
    }
}

impl<'a> Watch<'a> {
    /// Nothing happened yet.
    pub(crate) fn new(rt: &'a HostRuntime) -> Watch<'a> {
        Watch {
            rt,
            errors: Output::new(rt.stderr()),
        }
    }

    // The line that tells it.
    fn line(&self, news: &News) -> Result<String, AllocError> {
        match news {
            News::Met(dc) => format!(in self.rt.alloc(); "eiger: site {dc} was met\n"),
            News::Behind(dc, bytes) => {
                format!(in self.rt.alloc(); "eiger: {bytes} bytes wait for site {dc}\n")
            }
            News::Refused(dc) => format!(in self.rt.alloc();
                "eiger: site {dc} sent what isn't its own, and nothing more is taken from it\n"
            ),
            News::Trouble(trouble) => {
                let reason = reason(trouble);
                format!(in self.rt.alloc(); "eiger: a site was refused: {reason}\n")
            }
        }
    }
}

impl Watcher for Watch<'_> {
    fn came(&mut self, news: News) {
        if let Ok(line) = self.line(&news) {
            let _untold = self.errors.write_all(line.as_bytes());
        }
    }
}
