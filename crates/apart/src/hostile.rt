//! Parcels that no site takes: from an actor that isn't where they come from, for one that isn't there, altered, or cut.
use crate::building;
use crate::stores::Stores;
use logical_time::Fault;
use std::alloc::Global;

// Whether it is refused, and as what.
fn words(alloc: Global, heard: Result<(), Fault>) -> Result<String, Fault> {
    match heard {
        Ok(()) => Ok(String::from_str(alloc, "taken")?),
        Err(fault) => Ok(format!(in alloc; "{fault}")?),
    }
}

fn print(rt: &HostRuntime, name: &str, heard: Result<(), Fault>) -> Result<(), Fault> {
    let told = words(rt.alloc(), heard)?;
    match println!(rt; "  {name}: {told}") {
        Ok(()) => Ok(()),
        Err(_) => Err(Fault::WriteFailed),
    }
}

fn tell_each(rt: &HostRuntime, stores: &mut Stores) -> Result<(), Fault> {
    let alloc = rt.alloc();
    let op = building::write(alloc, &["r"], "a")?;
    stores.ask(alloc, 0, op)?;
    let posted = stores.posted(alloc, 0, 1)?;
    let Some(parcel) = posted.first() else {
        return Err(Fault::Script);
    };
    let bytes = parcel.as_slice();
    print(
        rt,
        "from another data centre than its actor's",
        stores.hear(alloc, 2, 1, bytes),
    )?;
    print(
        rt,
        "for an actor of another data centre",
        stores.hear(alloc, 0, 2, bytes),
    )?;
    print(
        rt,
        "from the data centre where it comes to",
        stores.hear(alloc, 1, 1, bytes),
    )?;
    print(
        rt,
        "back to where it is from",
        stores.hear(alloc, 0, 0, bytes),
    )?;
    let (cut, _) = bytes.split_at(bytes.len().saturating_sub(1));
    print(rt, "without its last byte", stores.hear(alloc, 0, 1, cut))?;
    let mut longer = Vec::from_slice(alloc, bytes)?;
    longer.push(0)?;
    print(rt, "with a byte behind", stores.hear(alloc, 0, 1, &longer))?;
    print(rt, "as it was sent", stores.hear(alloc, 0, 1, bytes))
}

/// Tells what comes of each.
pub(crate) fn tell(rt: &HostRuntime) -> Result<(), Fault> {
    if println!(rt; "parcels that no site takes").is_err() {
        return Err(Fault::WriteFailed);
    }
    let mut stores = Stores::open(rt.alloc())?;
    let told = tell_each(rt, &mut stores);
    stores.close();
    told
}
