//! Counts of what came back, and how a row is printed.
use crate::written::Back;
use anyhow::Result;

/// As many records come back at most.
const MOST: usize = 24;

/// How many files there were with so many records, then how many damaged ones, then how many others.
#[derive(Drop)]
pub(crate) struct Count {
    files: [usize; MOST + 3],
}

impl Count {
    pub(crate) fn new() -> Count {
        Count {
            files: [0; MOST + 3],
        }
    }

    /// One file more.
    pub(crate) fn add(&mut self, back: Back) {
        let which = match back {
            Back::Records(n) if n <= MOST => n,
            Back::Damaged => MOST + 1,
            _ => MOST + 2,
        };
        self.files[which] = self.files[which].saturating_add(1);
    }

    /// Prints what there was, behind a label.
    pub(crate) fn tell(&self, rt: &HostRuntime, label: &str) -> Result<()> {
        print!(rt; "{label}")?;
        let mut gap = ":";
        for (which, files) in self.files.iter().enumerate() {
            if *files > 0 {
                if which <= MOST {
                    print!(rt; "{gap} {files} with {which}")?;
                } else if which == MOST + 1 {
                    print!(rt; "{gap} {files} damaged")?;
                } else {
                    print!(rt; "{gap} {files} OTHER")?;
                }
                gap = ";";
            }
        }
        Ok(println!(rt)?)
    }
}
