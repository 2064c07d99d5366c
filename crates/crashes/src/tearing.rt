//! Files that were cut, damaged, or torn.
use crate::count::Count;
use crate::written::come_back;
use anyhow::Result;
use std::alloc::Global;

/// A file with a byte changed.
pub(crate) fn changed(alloc: Global, file: &[u8], at: usize, bit: u8) -> Result<Vec<u8>> {
    let mut image = file.to_vec(alloc)?;
    if let Some(byte) = image.get_mut(at) {
        *byte ^= bit;
    }
    Ok(image)
}

// The file with each bit changed in turn.
fn changed_at_each(rt: &HostRuntime, file: &[u8]) -> Result<()> {
    let mut count = Count::new();
    for at in 0..file.len() {
        for bit in [1, 2, 4, 8, 16, 32, 64, 128] {
            let image = changed(rt.alloc(), file, at, bit)?;
            count.add(come_back(rt.alloc(), &image)?);
        }
    }
    count.tell(rt, "each bit changed")
}

/// The beginning of a file, and this behind it.
pub(crate) fn torn(alloc: Global, begins: &[u8], behind: &[u8]) -> Result<Vec<u8>> {
    let mut image = begins.to_vec(alloc)?;
    image.extend_from_slice(behind)?;
    Ok(image)
}

// A file torn at each byte from a place on, and this behind it.
fn tear(rt: &HostRuntime, file: &[u8], from: usize, label: &str, behind: &[u8]) -> Result<()> {
    let mut count = Count::new();
    for kept in from..file.len() + 1 {
        let image = torn(rt.alloc(), &file[..kept], behind)?;
        count.add(come_back(rt.alloc(), &image)?);
    }
    count.tell(rt, label)
}

pub(crate) fn tell(rt: &HostRuntime, file: &[u8], synced: usize) -> Result<()> {
    let all = file.len();
    println!(rt; "written: {all} bytes, of which {synced} were synced first")?;
    tear(rt, file, 0, "cut at each byte", &[])?;
    changed_at_each(rt, file)?;
    tear(rt, file, synced, "torn, and zeros behind", &[0; 50])?;
    tear(rt, file, synced, "torn, and ones behind", &[255; 50])?;
    let old = torn(rt.alloc(), &[0], file)?;
    tear(rt, file, synced, "torn, and old records behind", &old)
}
