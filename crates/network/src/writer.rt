// Writing a net.
ghost use Rattle.std.specs.Prelude.{◌≡◌, ◌<◌, ◌++◌, length, IfOk, OnOk};
ghost use Rattle.std.specs.List.{flat_map};
ghost use Rattle.network.specs.Links.{links_of};
ghost use Rattle.octets.specs.Reading.{got};
ghost use Rattle.network.specs.Format.{link_bytes, bytes_of, read_net};
ghost use Rattle.network.specs.Values.{value};

use crate::net::{Link, Multicast};
use octets::{put_word, put_words};
use std::alloc::{AllocError, Global};

// The bytes of a net, from which it is read back.
pub fn write(heap: Global, net: &Multicast) -> Result<Vec<u8>, AllocError>
    ensures bytes { IfOk result (λ v. v.items ≡ bytes_of (value net.now)) }
    ensures back { IfOk result (λ v. read_net v.items ≡ got (value net.now)) }
{
    let network = &net.network;
    let mut out = Vec::new(heap);
    out.push(1)?;
    put_word(&mut out, network.nodes)?;
    put_word(&mut out, network.links.len() as u16)?;
    put_links(&mut out, &network.links)?;
    out.push(net.rate)?;
    out.push(net.receivers.len() as u8)?;
    put_words(&mut out, &net.receivers)?;
    Ok(out)
}

fn put_links(out: &mut Vec<u8>, links: &[Link]) -> Result<(), AllocError>
    ensures { OnOk result (out.new.items ≡ out.old.items ++ flat_map link_bytes (links_of links.now)) }
{
    for link in links {
        put_word(out, link.from)?;
        put_word(out, link.to)?;
    }
    Ok(())
}
