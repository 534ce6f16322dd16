// Networks. What holds of every accepted one is an invariant of the type: whoever makes a value proves it, so the fields are open to all.
ghost use Rattle.std.specs.Prelude.{◌≡◌, ◌<◌, vec_len, slice_index};
ghost use Rattle.network.specs.Network.{Limits, Within, Apart, InOrder, Fed, Rates, Placed, Rising};
ghost use Rattle.network.specs.Links.{begin_of, end_of};

// Nodes are numbered from 0, which is the source.
#[derive(Clone, Copy, Debug, PartialEq, Eq)]
pub struct Link {
    pub from: u16,
    pub to: u16,
}

// Links are numbered from 0 in the order of the list.
#[derive(Drop)]
pub struct Network {
    pub nodes: u16,
    pub links: Vec<Link>,
    ghost limits: { Limits nodes (vec_len links) },
    ghost within: { Within nodes (vec_len links) (begin_of links.items) (end_of links.items) },
    ghost apart: { Apart (vec_len links) (begin_of links.items) (end_of links.items) },
    ghost order: { InOrder (vec_len links) (begin_of links.items) (end_of links.items) },
    ghost fed: { Fed (vec_len links) (begin_of links.items) (end_of links.items) },
}

// The source sends `rate` packets in each round to every receiver.
#[derive(Drop)]
pub struct Multicast {
    pub network: Network,
    pub rate: u8,
    pub receivers: Vec<u16>,
    ghost rates: { Rates rate (vec_len receivers) },
    ghost placed: { Placed network.nodes (vec_len receivers) (λ i. slice_index receivers.items i) },
    ghost rising: { Rising (vec_len receivers) (λ i. slice_index receivers.items i) },
}
