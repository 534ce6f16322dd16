// What a dual row makes of the vector so far, and of the vector of which a multiple is to be added to it.
#[derive(Clone, Copy)]
pub struct Product {
    pub before: u8,
    pub added: u8,
}
