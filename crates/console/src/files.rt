// Files of nets and plans.
use std::fs::File;
use std::io::Read;
use std::{fs, io};

// The longest net has 4,231 bytes. No fault depends on what lies behind its item, so one byte more is all that need be read.
pub(crate) const LONGEST_NET: u64 = 4232;

// No plan for any net has as many bytes: at most 512 × 512 coefficients of a node between, and less than as many again.
pub(crate) const LONGEST_PLAN: u64 = 1 << 20;

// The bytes of a file, up to so many.
pub(crate) fn read_start(rt: &HostRuntime, path: &str, longest: u64) -> io::Result<Vec<u8>> {
    let file = File::open(rt, path)?;
    let mut bytes = Vec::new(rt.alloc());
    let _len = file.take(longest).read_to_end(&mut bytes)?;
    Ok(bytes)
}

// Whether something other than a regular file, as a device or a pipe, has this name.
fn is_special(rt: &HostRuntime, path: &str) -> bool {
    match fs::metadata(rt, path) {
        Ok(found) => !found.is_file(),
        Err(_) => false,
    }
}

// Puts bytes into a file under another name, which the file then takes: so a file that was there stays whole if this fails.
pub fn replace_file(rt: &HostRuntime, path: &str, bytes: &[u8]) -> io::Result<()> {
    if is_special(rt, path) {
        return fs::write(rt, path, bytes);
    }
    let fresh = format!(in rt.alloc(); "{path}.new")?;
    if let Err(e) = fs::write(rt, fresh.as_str(), bytes) {
        let _ = fs::remove_file(rt, fresh.as_str());
        return Err(e);
    }
    fs::rename(rt, fresh.as_str(), path)
}
