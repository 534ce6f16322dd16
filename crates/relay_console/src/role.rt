// What the node at a place is to do: relays send packets on, and receivers put messages out.
#[derive(Clone, Copy, Debug, PartialEq, Eq)]
pub enum Role {
    Relay,
    Receiver,
}
