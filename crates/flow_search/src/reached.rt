// A node that was reached: over which link, and from the node at which place of the queue, as the definition of the search has it. The source,
// which is first, has 0 for both: nothing goes back from it.
#[derive(Clone, Copy)]
pub struct Reached {
    pub node: u16,
    pub link: u16,
    pub place: u16,
}
