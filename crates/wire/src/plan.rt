// The plan of a net: what its relays and receivers work by.

#[derive(Drop)]
pub enum Plan {
    // the coefficients of each link, and for each receiver the links and rows by which it reads
    Served(Coded),
    // the first receiver with a cut, and for each node whether it is on the source's side
    Unserved { receiver: u16, side: [bool; 256] },
}

// For each link the coefficients of the packets at hand at its beginning, in their order.
#[derive(Drop)]
pub struct Coded {
    pub coefficients: Vec<Vec<u8>>,
    pub receivers: Vec<Decoder>,
}

// The packets on the links, in the order of the paths, are mixed by the rows to give the message.
#[derive(Drop)]
pub struct Decoder {
    pub links: Vec<u16>,
    pub rows: Vec<Vec<u8>>,
}
